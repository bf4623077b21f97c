// One step of a run, by an index over its table: a pair is looked up by a bit and a count of ones, where the step
// bisects. The index may hold anything; on the one that fill_index wrote for the table this is the step.
#![tactic(auto)]

ghost use Rattle.index_step.specs.Indexed.{IndexedStepped};

use caption_run::steps::{kern_step, step};
use captions::{Answer, RunOptions, State, Step};
use index::{Looked, look_up};
use step_quick::left::quick_left;
use step_quick_op::{is_ready, quick_step};
use words::slices::item_at;

// One step: its answer and the state that it leaves.
pub fn step_indexed(
    index: &[u64],
    pairs: &[i32],
    ops: &[i32],
    boundary: i32,
    word: &[u32],
    options: RunOptions,
    state: State,
) -> Step
    ensures { IndexedStepped index.now pairs.now ops.now boundary
        word.now options state result }
{
    let left = quick_left(ops, boundary, word, options, state);
    if left == 0 {
        return kern_step(pairs, ops, boundary, word, options, state);
    }
    let read = state.read;
    match look_up(index, pairs, left, item_at(word, read)) {
        Looked::Missing => quick_step(pairs, ops, word, pairs.len() / 6, state),
        Looked::At(k) => {
            if is_ready(pairs, ops, k) {
                return quick_step(pairs, ops, word, k, state);
            }
            step(pairs, ops, boundary, word, options, state)
        }
        Looked::Wrong => Step {
            answer: Answer::Refused(7),
            state: state,
        },
    }
}
