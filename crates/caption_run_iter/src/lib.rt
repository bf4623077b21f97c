// A reader that keeps the word it is given, after `RunIter` of ligkern/mod.rs: the word, and a run's state between two
// calls of `next`. Thin functions over `step`, which does the work by value.
#![tactic(auto)]

ghost use Rattle.std.specs.Prelude.{◌≡◌};
ghost use Rattle.caption_run_iter.specs.Reader.{MovesOn};
ghost use Rattle.captions.specs.Steps.{Stepped};

use caption_run::steps::step;
use captions::{Answer, RunOptions, State, Step};

#[derive(Clone, Copy)]
pub struct RunIter<'a> {
    pub word: &'a [u32],
    pub state: State,
}

// A reader over a word, at a state: the one that begin answered.
pub fn run_iter<'a>(word: &'a [u32], state: State) -> RunIter<'a>
    ensures { (result.word ≡ word.entry) × (result.state ≡ state) }
{
    RunIter {
        word: word,
        state: state,
    }
}

// The next item, and the reader moved on.
pub fn next<'s, 'a, 'b, 'c>(
    r: &'s mut RunIter<'a>,
    pairs: &'b [i32],
    ops: &'c [i32],
    boundary: i32,
    options: RunOptions,
) -> Answer
    ensures { MovesOn pairs.now ops.now boundary options r.old result
        r.new }
{
    let given = step(pairs, ops, boundary, r.word, options, r.state);
    r.state = given.state;
    given.answer
}

// One step of a reader that is made for it.
pub fn next_of(
    pairs: &[i32],
    ops: &[i32],
    boundary: i32,
    word: &[u32],
    options: RunOptions,
    state: State,
) -> Step
    ensures { Stepped pairs.now ops.now boundary word.now options state
        result }
{
    let mut reader = run_iter(word, state);
    let answer = next(&mut reader, pairs, ops, boundary, options);
    let left = reader.state;
    Step {
        answer: answer,
        state: left,
    }
}
