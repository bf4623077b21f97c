// The calls for a host in C that compile, ask, repair, read and write fonts, list words and drive the chip: a static library.
// Each calls the function of its crate and promises the same.
#![tactic(auto)]

mod c_chip_calls;
mod c_compile_calls;
mod c_display_calls;
mod c_files_calls;
mod c_font_requests_calls;
mod c_list_read_calls;
mod c_packing_calls;
mod c_programs_calls;
mod c_queries_calls;
mod c_repair_ask_calls;
mod c_repair_commit_calls;
mod c_scale_calls;
mod c_steps_calls;
mod c_word_count_calls;
mod c_words_calls;
