// Captions: what a run is given, what it answers, and the state between two steps. After ligkern/mod.rs (`RunOptions`,
// `RunIter`, `NextLeft`, `PendingLigature`). Types alone: what begin and step do with them is said in specs/, and crate
// `caption_run` does it.

// How a word is set: without the left boundary, and with another right item than the boundary character (-1 for none).
#![tactic(auto)]

#[derive(Clone, Copy)]
pub struct RunOptions {
    pub disable_left_boundary: bool,
    pub right_boundary_override: i32,
}

// What is looked up next, once the ops are given: the left boundary; a character of the word; a ligature that took the
// last letter read in; or, at the word's end, a ligature that is given as it stands, or nothing.
#[derive(Clone, Copy)]
pub enum NextLeft {
    Boundary,
    Char(u32),
    Lig(u32),
    FinalLig(u32),
    None,
}

// What the next ligature of a pair takes in of the pair's left: nothing, since it was given or is a pending ligature;
// its letter; or the left boundary.
#[derive(Clone, Copy)]
pub enum Consumes {
    Nothing,
    Letter,
    Boundary,
}

// A run between two steps.
#[derive(Clone, Copy)]
pub struct State {
    pub next_left: NextLeft,
    // the next op to be given, and how many are to be given
    pub op: usize,
    pub ops: usize,
    // letters of the word that were read, and that were given
    pub read: usize,
    pub given: usize,
    // the pending ligature: how many letters it took in, 0 where there is none, and whether it took in the left
    // boundary
    pub pending: usize,
    pub pending_boundary: bool,
    pub consumes_left: Consumes,
}

// What a step answers: a character with the place of its letter; a ligature with its code, its original's start and
// length, and whether it took in the left and the right boundary; a scaled kern; the end; or the number of its refusal.
#[derive(Clone, Copy)]
pub enum Answer {
    Char(u32, usize),
    Ligature(u32, usize, usize, bool, bool),
    Kern(i32),
    End,
    Refused(u32),
}

// A step's answer and the state that it leaves.
#[derive(Clone, Copy)]
pub struct Step {
    pub answer: Answer,
    pub state: State,
}

// What begin answers: a fresh state, or the number of its refusal.
#[derive(Clone, Copy)]
pub enum Begun {
    Run(State),
    Refused(u32),
}

// The answer to a question about a table, or the number of its refusal.
#[derive(Clone, Copy)]
pub enum Told {
    Is(bool),
    Refused(u32),
}

// One turn of a step: it answers, or goes on with another state.
#[derive(Clone, Copy)]
pub enum Turned {
    Gives(Step),
    Goes(State),
}
