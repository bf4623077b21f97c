// Which instruction altered a word (R481 to R488): types alone. What a removal is, what is answered and why is said in
// specs/; crate `blame` searches.

// The numbers of a font beside its lists, as compile takes them: -1 for a boundary character and a left entry that are
// absent, 0 for a size and a magnification that are not asked for.
#![tactic(auto)]

#[derive(Clone, Copy)]
pub struct FontNumbers {
    pub boundary: i32,
    pub left_entry: i32,
    pub design_size: i32,
    pub size: i32,
    pub magnification: i32,
}

// The lowest instruction whose removal alone alters the items; nothing where none does; or the number of a refusal.
#[derive(Clone, Copy)]
pub enum Blamed {
    At(usize),
    Nothing,
    Refused(u32),
}
