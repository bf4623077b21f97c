// The caption chip: the setter driven through a block of 16 bytes, by one command a call. Types, definitions (specs/)
// and theorems (proofs/Theorems) alone: crate `chip` has the commands.

// All that a chip knows between two commands; the block keeps nothing of it.
#![tactic(auto)]

#[derive(Clone, Copy)]
pub struct Chip {
    // whether a word is open; how many letters it has, and these; what stands past them is not read
    pub opened: bool,
    pub length: usize,
    pub letters: [u32; 64],
    // how many words each caller ended, and the caller of the last begin
    pub counts: [u32; 8],
    pub caller: u32,
    // the item that is shown; the end where there is none
    pub item: captions::Answer,
    // the run over the last word
    pub state: captions::State,
}

// What a command answers: 0 or the number of its refusal, and the chip after it.
#[derive(Clone, Copy)]
pub struct Commanded {
    pub number: u32,
    pub chip: Chip,
}
