// A font as it was before packing (PLtoTF 139 to 142): without the redirects in front of its own instructions and the
// instruction at the end that holds its left entry. Types, definitions (specs/) and a theorem (proofs/Theorems) alone.

// What taking packing back answers: how many instructions stood in front, how many the font has of its own, and its
// left entry moved back (-1 for none). Or that a redirect stands where packing puts none, and the font is as it was. Or
// the number of its refusal.
#![tactic(auto)]

#[derive(Clone, Copy)]
pub enum UnpackedFont {
    Own(usize, usize, i32),
    Kept,
    Refused(u32),
}
