// Text put into a lent list of bytes, numbers and characters as text: definitions (specs/) and laws (proofs/) alone.
// The functions are crate phrase_put.
#![tactic(auto)]
