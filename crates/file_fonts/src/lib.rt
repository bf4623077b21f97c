// The font that the bytes of a file mean: what reading it gives (crate `files`), with its entries unpacked and its
// design size. Types, definitions (specs/) and two theorems (proofs/Theorems) alone.

// What reading such a font answers: how many instructions, kerns, entries, and characters whose entry leads nowhere;
// its boundary character and its left entry (-1 for none), and its design size. Or the number of its refusal.
#![tactic(auto)]

#[derive(Clone, Copy)]
pub enum FileFont {
    Font(usize, usize, usize, usize, i32, i32, i32),
    Refused(u32),
}
