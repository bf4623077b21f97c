// What a step does most often, in front of the step: a character with a letter to its right and nothing pending is
// looked up at once, and a last kern is given at once; everything else is left to the step. After `RunIter::next` of
// ligkern/mod.rs. Each function is the definition of the same name in specs/Quick.antt or in captions. Here are the
// states that are such, and the kern; the place of a pair is found in crate step_quick_find, and what is given by it in
// crate step_quick_op, both as specs/Quick.antt says.
//   calm   what is asked of the state and the call
//   left   a quick state, its character, its letter and its left
//   kern   a last kern
#![tactic(auto)]

mod calm;
pub mod kern;
pub mod left;
