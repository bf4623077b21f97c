// What is checked of a state, and of the right item, before anything is looked up.
ghost use Rattle.std.specs.Prelude.{◌≡◌};
ghost use Rattle.words.specs.Words.{number_of};
ghost use Rattle.captions.specs.Steps.{or_boundary, next_fits, ops_placed, placed, right_item_fits};

use captions::{NextLeft, State};
use program_checks::is_letter;

// A character is a letter, and a ligature's code is one of 0 to 255.
fn next_fits(x: NextLeft) -> bool
    ensures { result ≡ next_fits x }
{
    match x {
        NextLeft::Boundary => true,
        NextLeft::Char(c) => is_letter(c),
        NextLeft::Lig(c) => c <= 255,
        NextLeft::FinalLig(c) => c <= 255,
        NextLeft::None => true,
    }
}

// The right item, where there is one, is a letter.
pub(crate) fn right_fits(right: u32) -> bool
    ensures { result ≡ right_item_fits (or_boundary (number_of right)) }
{
    if 2147483648 <= right {
        return true;
    }
    is_letter(right)
}

// An i32 counts the ops, and those that are to be given are among them.
fn ops_placed(ops: &[i32], s: State) -> bool
    ensures { result ≡ ops_placed ops.now s }
{
    let count = ops.len() / 2;
    if 2147483647 < count {
        return false;
    }
    if count < s.op {
        return false;
    }
    s.ops <= count - s.op
}

// The state points inside.
pub(crate) fn placed(ops: &[i32], word: &[u32], s: State) -> bool
    ensures { result ≡ placed ops.now word.now s }
{
    if word.len() < s.read {
        return false;
    }
    if s.read < s.given {
        return false;
    }
    if s.read < s.pending {
        return false;
    }
    if !ops_placed(ops, s) {
        return false;
    }
    let next = s.next_left;
    next_fits(next)
}
