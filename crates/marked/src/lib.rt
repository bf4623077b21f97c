// This crate holds definitions (specs/) and one theorem (proofs/) alone: the marked readings that are proved (R266 to
// R273).
#![tactic(auto)]
