// This crate holds definitions (specs/) and theorems (proofs/) alone.
#![tactic(auto)]
