// The definitions (specs/) and laws (proofs/) of compiling's passes over the rows of the work buffer, and the types
// that the passes answer with. Crates `compile_collect` to `compile_lists` hold the passes.
#![tactic(auto)]

// How many rows there are and how many of them are the boundary's, or the number of a refusal.
#[derive(Clone, Copy)]
pub enum Collected {
    Rows(usize, usize),
    Refused(u32),
}

// What a row says of its rule: op byte or 128, and inserted character or scaled kern, 0 for a kern that does not scale;
// and whether it scales.
#[derive(Clone, Copy)]
pub struct Effect {
    pub op: u32,
    pub value: u32,
    pub scaled: bool,
}

// The last of a pair, its code and its flag; or the row that has to finish first.
#[derive(Clone, Copy)]
pub enum Last {
    Known(u32, u32),
    Waits(usize),
}

// How many rows are on the path of the search, which are open, and how many have finished.
#[derive(Clone, Copy)]
pub struct Progress {
    pub path: usize,
    pub done: usize,
}

// What a row's ops are made of.
#[derive(Clone, Copy)]
pub enum Part {
    Nothing,
    // The character with this code.
    Character(u32),
    // The ligature with this code.
    Ligature(u32),
    // The scaled kern with these bits.
    Kern(u32),
    // The ops of this row.
    OfRow(usize),
}

// The rows of a font, how many of them are the boundary's, and whether every kern that is a rule scales; or the number
// of a refusal.
#[derive(Clone, Copy)]
pub enum Prepared {
    Rows(usize, usize, bool),
    Refused(u32),
}

// The same rows, once it is known how many of them finish: rows, the boundary's, those that finish, and whether every
// kern scales; or a refusal.
#[derive(Clone, Copy)]
pub enum SettledFont {
    Rows(usize, usize, usize, bool),
    Refused(u32),
}

// The same rows, once their loops are listed: rows, those that finish, loops, and whether every kern scales; or a
// refusal.
#[derive(Clone, Copy)]
pub enum WalkedFont {
    Rows(usize, usize, usize, bool),
    Refused(u32),
}

// The same rows, once their ops are counted: rows, those that finish, ops, loops; or a refusal.
#[derive(Clone, Copy)]
pub enum CountedFont {
    Sizes(usize, usize, u32, usize),
    Refused(u32),
}
