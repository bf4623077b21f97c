// The calls for a host in C that answer and convert a column text, and that say which instruction altered a word: a static library.
// Each calls the function of its crate and promises the same.
#![tactic(auto)]

mod c_blame_calls;
mod text_answer_calls;
mod text_convert_calls;
