// The LIGTABLE property list of TFtoPL and PLtoTF, as text. Definitions and theorems; the functions are the crates
// real_text and pl_*.
#![tactic(auto)]

// A number of a text and the place that follows it, or 23.
#[derive(Clone, Copy)]
pub enum ValueRead {
    Value(u32, usize),
    Refused,
}

// A property, or what else stands where one can: the parenthesis that closes LIGTABLE, and the end of the text. A
// label's character is 256 for the boundary. A ligature has its op byte, its right and its inserted character; a kern
// its right character and the 32 bits of its value.
#[derive(Clone, Copy)]
pub enum Property {
    Comment,
    Boundary(u32),
    Table,
    Label(u32),
    Stop,
    Skip(u32),
    Ligature(u32, u32, u32),
    Kern(u32, u32),
    Closed,
    Ended,
}

// A property and the place that follows it, or 23.
#[derive(Clone, Copy)]
pub enum PropertyRead {
    Read(Property, usize),
    Refused,
}

// What was read so far: 0 nothing, 1 the boundary character, 2 LIGTABLE up to here, 3 all of it (`stage`); the 32 bits
// of the boundary character; how many steps; whether STOP or SKIP may stand here; how many steps labels and SKIPs ask
// for.
#[derive(Clone, Copy)]
pub struct Progress {
    pub stage: u32,
    pub boundary: u32,
    pub steps: usize,
    pub ending: bool,
    pub needed: usize,
}

// Indentation so far: where in a line (0 before its first character, after `blanks` blanks; 1 behind that; 2 behind
// blanks and carriage returns), how many parentheses are open, how many good lines since the last bad one, and how many
// blanks for each open parenthesis, 0 if unknown.
#[derive(Clone, Copy)]
pub struct Indents {
    pub mode: u32,
    pub blanks: usize,
    pub level: usize,
    pub good: usize,
    pub indent: usize,
}

// Indentation after a byte, or 23.
#[derive(Clone, Copy)]
pub enum Indented {
    To(Indents),
    Refused,
}

// What reading a text answers: how many instructions, kerns and entries it has, its boundary character and its left
// entry (-1 for none); or the number of its refusal.
#[derive(Clone, Copy)]
pub enum Listed {
    Font(usize, usize, usize, i32, i32),
    Refused(u32),
}
