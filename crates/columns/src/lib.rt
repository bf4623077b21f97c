// The column text (R185 to R213): the types of what is read. What they hold is said in specs/, from the bytes of a text
// to those of its reply; crate `text_fields` reads a field, `text_scan` a text, `text_reply` writes a reply, and
// `text_answer` does the whole.

#![tactic(auto)]

// What a text says beside its lists, and how long these are: numbers of instructions, kerns and entries, and the
// characters of the word (-1 where there is no word).
#[derive(Clone, Copy)]
pub struct TextHeads {
    pub design: i32,
    pub boundary: i32,
    pub left: i32,
    pub instructions: usize,
    pub kerns: usize,
    pub entries: usize,
    pub letters: i32,
}
