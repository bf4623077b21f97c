// The state of a run in a list of u64 (R218 to R221), for a host that has slices and integers alone.
//   states   the nine numbers of a state, written and read
//   numbers  nine numbers at the front of a list
#![tactic(auto)]

mod numbers;
pub mod states;
