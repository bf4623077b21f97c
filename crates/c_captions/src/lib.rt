// A run and a word set whole for a host in C: slices and integers in, the number of a refusal out (R214; 0 where it is
// taken), and the values in a list that is lent for them (R215). Compiling is crate c_compile, the steps of a run are
// c_steps, and the list of a state is c_states.
//   runs   ligkern_begin
//   whole  ligkern_set_word
#![tactic(auto)]

pub mod runs;
pub mod whole;
