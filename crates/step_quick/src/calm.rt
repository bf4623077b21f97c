// What is asked of a state and of the call before anything is looked up: what a step refuses, that nothing is pending,
// and that a character is next.
ghost use Rattle.std.specs.Prelude.{◌≡◌};
ghost use Rattle.captions.specs.Steps.{ops_placed};
ghost use Rattle.step_quick.specs.Quick.{is_calm, is_taken, is_plain};

use crate::left::plain_code;
use captions::{RunOptions, State};
use program_checks::absent_refusal;

// An i32 counts the ops, and those that are to be given are among them.
fn ops_placed(ops: &[i32], s: State) -> bool
    ensures { result ≡ ops_placed ops.now s }
{
    let count = ops.len() / 2;
    if 2147483647 < count {
        return false;
    }
    if count < s.op {
        return false;
    }
    s.ops <= count - s.op
}

// Nothing is pending, the next left is a character, and the state points inside.
fn is_calm(ops: &[i32], word: &[u32], s: State) -> bool
    ensures { result ≡ is_calm ops.now word.now s }
{
    if s.pending != 0 {
        return false;
    }
    let next = s.next_left;
    if 255 < plain_code(next) {
        return false;
    }
    if word.len() < s.read {
        return false;
    }
    if s.read < s.given {
        return false;
    }
    ops_placed(ops, s)
}

// The boundary character, the override and the word's length are in range; an override above 255 goes by turns.
fn is_taken(boundary: i32, word: &[u32], options: RunOptions) -> bool
    ensures { result ≡ is_taken boundary word.now options }
{
    if absent_refusal(255, boundary) != 0 {
        return false;
    }
    if absent_refusal(255, options.right_boundary_override) != 0 {
        return false;
    }
    word.len() <= 65535
}

// Both.
pub(crate) fn is_plain(
    ops: &[i32],
    boundary: i32,
    word: &[u32],
    options: RunOptions,
    s: State,
) -> bool
    ensures { result ≡ is_plain ops.now boundary word.now options s }
{
    if !is_calm(ops, word, s) {
        return false;
    }
    is_taken(boundary, word, options)
}
