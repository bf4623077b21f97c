// The questions about a table for a host in C, which can lend slices of numbers and pass integers and nothing else:
// each answers a number, 0 or that of a refusal (R214), and writes the values of its answer to the list `values`
// (R215). A refusal, 15 for a short `values` among them (R216), leaves zeros in every list that is written (R252).
//   answers    a yes or a no as a count
//   questions  the calls
#![tactic(auto)]

mod answers;
pub mod questions;
