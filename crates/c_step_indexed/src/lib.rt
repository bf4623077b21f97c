// One step of a run by an index over its table, whose state stands in a list, for a host in C: slices and integers in,
// the number of a refusal out (R214; 0 where it is taken). What crate c_steps does, with the steps of crate index_step:
// a quick step and a last kern whose item has exactly its seven places are told at once, and every other step goes by
// `any_step`.
#![tactic(auto)]

ghost use Rattle.c_states.specs.States.{options_of};
ghost use Rattle.c_steps.specs.Step.{StepsBy};
ghost use Rattle.c_step_indexed.specs.Indexed.{indexed_step_in};

use c_states::states::{put_state, state_in};
use c_steps::items::{refusal_of, tell};
use captions::RunOptions;
use index::place_by;
use index_step::step_indexed;
use program_checks::lower_of;
use program_limits::room_refusal;
use step_quick::kern::{give_kern, is_kern};
use step_quick::left::quick_left;
use step_quick_op::{is_ready, quick_step};
use words::slices::{item_at, zero_all};

// One step from whatever state stands in the list, into an item list of any length.
fn any_step(
    index: &[u64],
    pairs: &[i32],
    ops: &[i32],
    boundary: i32,
    word: &[u32],
    options: RunOptions,
    state: &mut [u64],
    item: &mut [i32],
) -> u32
    ensures { StepsBy
        (indexed_step_in index.now pairs.now ops.now boundary
        word.now options state.old) state.old item.old result
        state.new item.new }
{
    zero_all(item);
    let from = state_in(state);
    let stepped = step_indexed(index, pairs, ops, boundary, word, options, from);
    let answer = stepped.answer;
    let number = refusal_of(answer);
    if number != 0 {
        return lower_of(number, room_refusal(7, item.len()));
    }
    if item.len() < 7 {
        return 15;
    }
    tell(item, answer);
    let next = stepped.state;
    put_state(state, next)
}

// One step by the index: 1 and the six numbers of its item, or zeros at the end; the next state in place of the last. A
// refused step leaves the state as it was. A step's numbers, with 7 for numbers that are no state and where the index
// says a place at which the pair does not stand; 15 where the item has no room comes before 20.
#[unsafe(no_mangle)]
pub extern "C" fn ligkern_step_indexed(
    index: &[u64],
    pairs: &[i32],
    ops: &[i32],
    boundary: i32,
    word: &[u32],
    disable_left_boundary: bool,
    right_boundary_override: i32,
    state: &mut [u64],
    item: &mut [i32],
) -> u32
    ensures { StepsBy
        (indexed_step_in index.now pairs.now ops.now boundary
        word.now (options_of disable_left_boundary right_boundary_override)
        state.old) state.old item.old result state.new
        item.new }
{
    let options = RunOptions {
        disable_left_boundary: disable_left_boundary,
        right_boundary_override: right_boundary_override,
    };
    if item.len() != 7 {
        return any_step(index, pairs, ops, boundary, word, options, state, item);
    }
    let from = state_in(state);
    let left = quick_left(ops, boundary, word, options, from);
    if left == 0 {
        if !is_kern(ops, boundary, word, options, from) {
            return any_step(index, pairs, ops, boundary, word, options, state, item);
        }
        let kerned = give_kern(ops, from);
        let kern = kerned.answer;
        tell(item, kern);
        let after = kerned.state;
        return put_state(state, after);
    }
    let read = from.read;
    let k = place_by(index, pairs, left, item_at(word, read));
    if pairs.len() / 6 < k {
        return any_step(index, pairs, ops, boundary, word, options, state, item);
    }
    if !is_ready(pairs, ops, k) {
        return any_step(index, pairs, ops, boundary, word, options, state, item);
    }
    let stepped = quick_step(pairs, ops, word, k, from);
    let answer = stepped.answer;
    tell(item, answer);
    let moved = stepped.state;
    put_state(state, moved)
}
