// A fresh run, whose state stands in a list. Its steps are crate c_steps.
ghost use Rattle.c_captions.specs.Begin.{BeginsRun};
ghost use Rattle.c_states.specs.States.{options_of};

use c_states::states::put_state;
use caption_run::begin::begin;
use captions::{Begun, RunOptions};
use program_checks::lower_of;
use program_limits::room_refusal;
use words::slices::zero_all;

// The state of a fresh run, nine numbers with zeros after them. Begin's numbers; 15 where the list has no room for it
// comes before 20.
#[unsafe(no_mangle)]
pub extern "C" fn ligkern_begin(
    pairs: &[i32],
    ops: &[i32],
    boundary: i32,
    word: &[u32],
    disable_left_boundary: bool,
    right_boundary_override: i32,
    state: &mut [u64],
) -> u32
    ensures { BeginsRun pairs.now ops.now boundary word.now
        (options_of disable_left_boundary right_boundary_override) state.old result
        state.new }
{
    zero_all(state);
    let options = RunOptions {
        disable_left_boundary: disable_left_boundary,
        right_boundary_override: right_boundary_override,
    };
    match begin(pairs, ops, boundary, word, options) {
        Begun::Refused(n) => lower_of(n, room_refusal(9, state.len())),
        Begun::Run(fresh) => put_state(state, fresh),
    }
}
