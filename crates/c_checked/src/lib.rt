// A table checked once, and words set whole over it, for a host in C: slices and integers in, the number of a refusal
// out (R214; 0 where it is taken). The contracts are those of captions/specs/Form and c_captions/specs/Whole; what the
// check is for is word_set_checked/specs/Purpose. Words by an index are crate c_checked_indexed.
//   form   ligkern_check_table
//   whole  ligkern_set_checked_word
#![tactic(auto)]

pub mod form;
pub mod whole;
