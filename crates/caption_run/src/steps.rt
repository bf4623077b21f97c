// One step of a run, after `RunIter::next` of ligkern/mod.rs: the quick path of crate step_quick, and else what is
// checked of the call, the right item, and the turns. Each function is the definition of the same name in
// captions/specs/Steps.antt.
ghost use Rattle.std.specs.Prelude.{◌≡◌};
ghost use Rattle.words.specs.Words.{number_of};
ghost use Rattle.captions.specs.Steps.{or_boundary, right_item, hand_back, step_of, Stepped};

use crate::edges::{edges_refusal, word_refusal};
use captions::{Answer, RunOptions, State, Step};
use step_quick::kern::{give_kern, is_kern};
use step_quick::left::quick_left;
use step_quick_find::found_place;
use step_quick_op::{is_ready, quick_step};
use words::word_of;

// The right item of a word, as its bits: the override, else the boundary character.
fn right_item(boundary: i32, over: i32) -> u32
    ensures { or_boundary (number_of result) ≡ right_item boundary over }
{
    let w = word_of(over);
    if w < 2147483648 { w } else { word_of(boundary) }
}

// A refused step hands back the state that it was handed.
fn hand_back(s: State, t: Step) -> Step
    ensures { result ≡ hand_back s t.state t.answer }
{
    let answer = t.answer;
    match answer {
        Answer::Char(_, _) => t,
        Answer::Ligature(_, _, _, _, _) => t,
        Answer::Kern(_) => t,
        Answer::End => t,
        Answer::Refused(_) => Step {
            answer: answer,
            state: s,
        },
    }
}

// The step by turns.
fn turned_step(
    pairs: &[i32],
    ops: &[i32],
    boundary: i32,
    word: &[u32],
    options: RunOptions,
    state: State,
) -> Step
    ensures { result ≡ step_of pairs.now ops.now boundary word.now options
        state }
{
    let edges = edges_refusal(boundary, options);
    if edges != 0 {
        return Step {
            answer: Answer::Refused(edges),
            state: state,
        };
    }
    let letters = word_refusal(word);
    if letters != 0 {
        return Step {
            answer: Answer::Refused(letters),
            state: state,
        };
    }
    let over = options.right_boundary_override;
    let right = right_item(boundary, over);
    let given = step_turns::run(pairs, ops, right, word, state);
    hand_back(state, given)
}

// A last kern at once, and else the step by turns.
pub fn kern_step(
    pairs: &[i32],
    ops: &[i32],
    boundary: i32,
    word: &[u32],
    options: RunOptions,
    state: State,
) -> Step
    ensures { result ≡ step_of pairs.now ops.now boundary word.now options
        state }
{
    if is_kern(ops, boundary, word, options, state) {
        return give_kern(ops, state);
    }
    turned_step(pairs, ops, boundary, word, options, state)
}

// One step: its answer and the state that it leaves.
pub fn step(
    pairs: &[i32],
    ops: &[i32],
    boundary: i32,
    word: &[u32],
    options: RunOptions,
    state: State,
) -> Step
    ensures { Stepped pairs.now ops.now boundary word.now options state
        result }
{
    let left = quick_left(ops, boundary, word, options, state);
    if left == 0 {
        return kern_step(pairs, ops, boundary, word, options, state);
    }
    let read = state.read;
    let k = found_place(pairs, left, word[read]);
    if is_ready(pairs, ops, k) {
        return quick_step(pairs, ops, word, k, state);
    }
    turned_step(pairs, ops, boundary, word, options, state)
}
