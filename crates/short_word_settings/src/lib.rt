// Theorems: what setting the next short word gives. No functions.
#![tactic(auto)]
