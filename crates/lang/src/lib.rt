// The lig/kern programming language, after ligkern/lang.rs. Files by concern:
//   operation    op bytes and what they mean (lang.rs lines 364 to 440)
//   instruction  the record at an index of a lent list, as a struct (lines 28 to 93)
//   entries      the table of 257 places
// The refusals 1 to 5 of what is lent are crates program_checks and program_limits; what else lang.rs has stands in
// crates of their own above it, which README lists.
#![tactic(auto)]

pub mod entries;
pub mod instruction;
pub mod operation;

// What a function that fills a lent list answers: how many it wrote, or the number of its refusal.
#[derive(Clone, Copy)]
pub enum Written {
    Count(usize),
    Refused(u32),
}
