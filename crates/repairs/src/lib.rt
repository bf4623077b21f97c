// Repair, after `validate_and_fix` of ligkern/lang.rs (lines 691 to 818): what is warned of and the font repaired
// (specs/), what is proved of them (proofs/), and the types that the parts of repair answer with. Crate `repair_ask`
// tells the warnings, and crate `repair_commit` repairs.

// What is wrong with a step: its skip passes the end; it is a redirect to be warned of; its right character neither
// exists nor is the boundary character; its kern index is past the list; the character that it inserts does not exist;
// its op byte is not standard.
#![tactic(auto)]

#[derive(Clone, Copy)]
pub struct Faults {
    pub skip: bool,
    pub redirect: bool,
    pub right: bool,
    pub kern: bool,
    pub product: bool,
    pub tag: bool,
}

// How many of the entries unpack, and how many warnings there are.
#[derive(Clone, Copy)]
pub struct Entered {
    pub entries: usize,
    pub warnings: usize,
}

// What the passes of repair answer: the repaired left entry and how many warnings there are, or the number of their
// refusal.
#[derive(Clone, Copy)]
pub enum Validated {
    Fixed(i32, usize),
    Refused(u32),
}

// What committing answers: the repaired left entry, or the number of its refusal.
#[derive(Clone, Copy)]
pub enum Committed {
    Fixed(i32),
    Refused(u32),
}
