// A font compiled for a host in C: slices and integers in, the number of a refusal out (R214; 0 where it is taken), and
// the counts in a list that is lent for them (R215).
//   compiled   ligkern_compile
//   numbers    three numbers of a list
#![tactic(auto)]

pub mod compiled;
mod numbers;
