// The requests and answers of tools/oracle, as the program test_vectors reads and writes them. Files by concern:
//   read     the lines of a text, and the numbers of a line
//   request  the lists among these numbers, and the font at their end
//   answer   the numbers of an answer
//   sets     a set of indices, listed
//   write    an answer as a line of text
#![tactic(auto)]

pub mod answer;
pub mod read;
pub mod request;
pub mod sets;
pub mod write;
