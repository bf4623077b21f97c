// The calls about programs for a host in C, which can lend slices of numbers and pass integers and nothing else: each
// answers a number, 0 or that of a refusal (R214), and writes the values of its answer to the list `values` (R215). A
// refusal, 15 for a short `values` among them (R216), leaves zeros in every list that is written (R252). Crate
// `c_packing` has the calls that write a program anew, `c_repair` repair, `c_queries` the questions about a table.
//   answers   answers of other kinds as a count
//   programs  chains, unpacking, the program's seven-bit test, reach
#![tactic(auto)]

mod answers;
pub mod programs;
