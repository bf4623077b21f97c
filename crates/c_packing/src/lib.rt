// The calls that write a program anew, for a host in C, which can lend slices of numbers and pass integers and nothing
// else: packing of entries, kerns packed and kerns unpacked. Each answers a number, 0 or that of a refusal (R214), and
// writes the values of its answer to the list `values` (R215). A refusal, 15 for a short `values` among them (R216),
// leaves zeros in every list that is written (R252).
//   entries        packing of entries
//   packed_kerns   kerns packed            unpacked_kerns   kerns unpacked
#![tactic(auto)]

pub mod entries;
pub mod packed_kerns;
pub mod unpacked_kerns;
