// Items of a caption, after `RunIter::next` of ligkern/mod.rs: the left as it stands, a ligature with its original, and
// the op that is next. Each function is the definition of the same name in captions/specs/Steps.antt.
//   give   giving an item            op     the op that is next
#![tactic(auto)]

pub mod give;
pub mod op;
