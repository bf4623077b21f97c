// A last kern: one op is to be given, and it is a kern.
ghost use Rattle.std.specs.Prelude.{◌≡◌};
ghost use Rattle.step_quick.specs.Quick.{is_kern, given_kern};

use crate::calm::is_plain;
use captions::{Answer, RunOptions, State, Step};
use step_items::op::after_op;
use words::word_of;

// One op is to be given, a kern, and a step refuses nothing.
pub fn is_kern(ops: &[i32], boundary: i32, word: &[u32], options: RunOptions, s: State) -> bool
    ensures { result ≡ is_kern ops.now boundary word.now options s }
{
    if s.ops != 1 {
        return false;
    }
    if !is_plain(ops, boundary, word, options, s) {
        return false;
    }
    let op = s.op;
    let kind = ops[2 * op];
    word_of(kind) == 2
}

// The kern that is next; 7 where there is no such op.
pub fn give_kern(ops: &[i32], s: State) -> Step
    ensures { result ≡ given_kern ops.now s }
{
    let op = s.op;
    if ops.len() / 2 <= op {
        return Step {
            answer: Answer::Refused(7),
            state: s,
        };
    }
    let state = after_op(s);
    let value = ops[2 * op + 1];
    Step {
        answer: Answer::Kern(value),
        state: state,
    }
}
