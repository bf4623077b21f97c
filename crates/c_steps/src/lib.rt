// One step of a run whose state stands in a list, for a host in C: slices and integers in, the number of a refusal out
// (R214; 0 where it is taken). A quick step (crate step_quick) whose item has exactly its seven places is told at once;
// every other one goes by `any_step`. `any_step` reads the state from its list anew, so that on the quick path no state
// is built in memory for it.
//   items  an item, in a list of seven numbers
#![tactic(auto)]

ghost use Rattle.c_states.specs.States.{options_of};
ghost use Rattle.c_steps.specs.Step.{StepsRun};

use c_states::states::{put_state, state_in};
use caption_run::steps::kern_step;
use captions::RunOptions;
use items::{refusal_of, tell, tell_character};
use program_checks::lower_of;
use program_limits::room_refusal;
use step_quick::kern::{give_kern, is_kern};
use step_quick::left::quick_left;
use step_quick_find::found_place;
use step_quick_op::{is_ready, quick_step};
use words::slices::{item_at, zero_all};

pub mod items;

// One step from whatever state stands in the list, into an item list of any length. A last kern whose item has exactly
// its seven places is told at once.
fn any_step(
    pairs: &[i32],
    ops: &[i32],
    boundary: i32,
    word: &[u32],
    options: RunOptions,
    state: &mut [u64],
    item: &mut [i32],
) -> u32
    ensures { StepsRun pairs.now ops.now boundary word.now options
        state.old item.old result state.new item.new }
{
    let from = state_in(state);
    if is_kern(ops, boundary, word, options, from) {
        if item.len() == 7 {
            let kerned = give_kern(ops, from);
            let kern = kerned.answer;
            tell(item, kern);
            let after = kerned.state;
            return put_state(state, after);
        }
    }
    zero_all(item);
    let stepped = kern_step(pairs, ops, boundary, word, options, from);
    let answer = stepped.answer;
    let number = refusal_of(answer);
    if number != 0 {
        return lower_of(number, room_refusal(7, item.len()));
    }
    if item.len() < 7 {
        return 15;
    }
    tell(item, answer);
    let next = stepped.state;
    put_state(state, next)
}

// One step: 1 and the six numbers of its item, or zeros at the end; the next state in place of the last. A refused step
// leaves the state as it was. A step's numbers, with 7 for numbers that are no state; 15 where the item has no room
// comes before 20.
#[unsafe(no_mangle)]
pub extern "C" fn ligkern_step(
    pairs: &[i32],
    ops: &[i32],
    boundary: i32,
    word: &[u32],
    disable_left_boundary: bool,
    right_boundary_override: i32,
    state: &mut [u64],
    item: &mut [i32],
) -> u32
    ensures { StepsRun pairs.now ops.now boundary word.now
        (options_of disable_left_boundary right_boundary_override) state.old item.old
        result state.new item.new }
{
    let options = RunOptions {
        disable_left_boundary: disable_left_boundary,
        right_boundary_override: right_boundary_override,
    };
    if item.len() != 7 {
        return any_step(pairs, ops, boundary, word, options, state, item);
    }
    let from = state_in(state);
    let left = quick_left(ops, boundary, word, options, from);
    if left == 0 {
        return any_step(pairs, ops, boundary, word, options, state, item);
    }
    let read = from.read;
    let k = found_place(pairs, left, item_at(word, read));
    if !is_ready(pairs, ops, k) {
        return any_step(pairs, ops, boundary, word, options, state, item);
    }
    let stepped = quick_step(pairs, ops, word, k, from);
    let answer = stepped.answer;
    tell_character(item, answer);
    let moved = stepped.state;
    put_state(state, moved)
}
