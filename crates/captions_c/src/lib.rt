// The calls for a host in C that set captions over a table or an index, and step through them: a static library.
// Each calls the function of its crate and promises the same.
#![tactic(auto)]

mod c_captions_calls;
mod c_checked_calls;
mod c_checked_indexed_calls;
mod c_font_steps_calls;
mod c_indexed_calls;
mod c_step_indexed_calls;
