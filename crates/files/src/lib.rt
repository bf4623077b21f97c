// Font files: what a file says of ligatures and kerns, as TeX 539 to 545 lays it out. Types and definitions (specs/)
// alone.

// The twelve lengths at the front of a file (TeX 540), in words but for the first and the last character.
#![tactic(auto)]

#[derive(Clone, Copy)]
pub struct FileLengths {
    pub lf: u32,
    pub lh: u32,
    pub bc: u32,
    pub ec: u32,
    pub nw: u32,
    pub nh: u32,
    pub nd: u32,
    pub ni: u32,
    pub nl: u32,
    pub nk: u32,
    pub ne: u32,
    pub np: u32,
}

// What reading a file answers: how many instructions, kerns and entries it has, its boundary character and its left
// entry (-1 for none); or the number of its refusal.
#[derive(Clone, Copy)]
pub enum Deserialized {
    Font(usize, usize, usize, i32, i32),
    Refused(u32),
}

// What sharing the kerns and packing the entries of a font answers: how many words of the lig/kern section and how many
// kerns it has; or the number of its refusal.
#[derive(Clone, Copy)]
pub enum PackedFont {
    Sizes(usize, usize),
    Refused(u32),
}
