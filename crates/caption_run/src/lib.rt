// Running a compiled lig/kern program, after ligkern/mod.rs: a fresh run, and one step of it. The types and the
// definitions are crate captions'; what else a host asks is crates table_queries and table_seven_bit.
//   begin  `begin`
//   steps  `step`, over crate step_turns
//   edges  what goes with a word besides its letters
#![tactic(auto)]

pub mod begin;
pub mod edges;
pub mod steps;
