// Where a font may change: whether a state is free, and the one turn that is passed before it is tested.
//   free     whether a state is free
//   passing  the turn that is passed, and a state restarted
#![tactic(auto)]

pub mod free;
pub mod passing;
