// The calls that read a font file and write one, for a host in C, which can lend slices of numbers and pass integers
// and nothing else. Each answers a number, 0 or that of a refusal (R214). A refusal leaves zeros in every list that is
// written (R252); 15 for a list of fixed size comes before 17 and 18.
//   reading   a font file read            writing   another program in its middle
#![tactic(auto)]

pub mod reading;
pub mod writing;
