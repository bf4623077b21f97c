// Change of font during a caption: a run that knows its font, and what is asked for. The host numbers its fonts; tables
// are lent, so that a call gets those of both numbers. Types, definitions (specs/) and theorems (proofs/Theorems)
// alone: crates `font_requests` and `font_steps` have the functions.

// A run between two steps, with the number of the font in force, and that of another that is asked for.
#![tactic(auto)]

#[derive(Clone, Copy)]
pub struct FontRun {
    pub state: captions::State,
    pub font: u32,
    pub asked: Option<u32>,
}

// What a request, and the start of a word, answers: the run after it, or the number of its refusal.
#[derive(Clone, Copy)]
pub enum Requested {
    Taken(FontRun),
    Refused(u32),
}

// A step's answer and the run that it leaves.
#[derive(Clone, Copy)]
pub struct FontStep {
    pub answer: captions::Answer,
    pub run: FontRun,
}
