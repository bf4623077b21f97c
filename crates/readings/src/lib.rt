// What stands after each step of the one-by-one reading, as a list of items: definitions (specs/) and types alone.

// What one step answers: how many items stand then, and which of them is left of the cursor; or that the reading has
// ended; or the number of its refusal.
#![tactic(auto)]

#[derive(Clone, Copy)]
pub enum OneStep {
    Standing(usize, usize),
    Ended,
    Refused(u32),
}
