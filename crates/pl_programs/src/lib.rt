// Theorems: what is read from a property list is a program. No functions.
#![tactic(auto)]
