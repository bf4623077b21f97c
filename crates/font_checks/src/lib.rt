// What checking a font file answers: the font that its bytes mean (crate `file_fonts`), compiled. Types, definitions
// (specs/) and two theorems (proofs/Theorems) alone.

// What checking a file answers: how many instructions, kerns, entries, and characters whose entry leads nowhere; its
// boundary character and its left entry (-1 for none), and its design size; how many pairs its table has, how many ops,
// and how many loops. Or the number of its refusal.
#![tactic(auto)]

#[derive(Clone, Copy)]
pub enum Checked {
    Font(usize, usize, usize, usize, i32, i32, i32, usize, usize, usize),
    Refused(u32),
}
