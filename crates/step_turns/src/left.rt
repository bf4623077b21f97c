// The left of a pair, before and after it is looked up.
ghost use Rattle.std.specs.Prelude.{◌≡◌, true, ◌<◌};
ghost use Rattle.reading.specs.Items.{item};
ghost use Rattle.captions.specs.Replies.{next_code};
ghost use Rattle.captions.specs.Steps.{gathered, left_place_of, left_consumed, after_right, read_on, with_next};
ghost use Rattle.captions.specs.Steps.{give_left};
ghost use Rattle.captions.specs.Steps.{is_character, with_pending, longer, next_fits};

use captions::{Consumes, NextLeft, State, Turned};
use step_items::give::give_character;

// A left that is a ligature takes in the letter that it was made of.
pub(crate) fn gathered(x: NextLeft, s: State) -> State
    requires { s.pending < 9223372036854775808 }
    ensures { result ≡ gathered x s }
{
    match x {
        NextLeft::Boundary => s,
        NextLeft::Char(_) => s,
        NextLeft::Lig(_) => longer(s),
        NextLeft::FinalLig(_) => s,
        NextLeft::None => s,
    }
}

// A pending ligature of n letters, which took its left in.
fn with_pending(n: usize, boundary: bool, s: State) -> State
    ensures { result ≡ with_pending n boundary s }
{
    let next = s.next_left;
    State {
        next_left: next,
        op: s.op,
        ops: s.ops,
        read: s.read,
        given: s.given,
        pending: n,
        pending_boundary: boundary,
        consumes_left: Consumes::Nothing,
    }
}

// The pending ligature with one letter more, and with what it takes in of its left.
fn longer(s: State) -> State
    requires { s.pending < 9223372036854775808 }
    ensures { result ≡ longer s }
{
    let consumes = s.consumes_left;
    match consumes {
        Consumes::Nothing => with_pending(s.pending + 1, s.pending_boundary, s),
        Consumes::Letter => with_pending(s.pending + 2, s.pending_boundary, s),
        Consumes::Boundary => with_pending(s.pending + 1, true, s),
    }
}

// A left by its number: 0 for the boundary, else one more than its code.
pub(crate) fn left_place_of(x: NextLeft) -> u32
    requires { next_fits x ≡ true }
    ensures { result ≡ left_place_of x }
{
    match x {
        NextLeft::Boundary => 0,
        NextLeft::Char(c) => c + 1,
        NextLeft::Lig(c) => c + 1,
        NextLeft::FinalLig(c) => c + 1,
        NextLeft::None => 0,
    }
}

// What the first ligature of a pair takes in of its left.
pub(crate) fn left_consumed(x: NextLeft) -> Consumes
    ensures { result ≡ left_consumed x }
{
    match x {
        NextLeft::Boundary => Consumes::Boundary,
        NextLeft::Char(_) => Consumes::Letter,
        NextLeft::Lig(_) => Consumes::Nothing,
        NextLeft::FinalLig(_) => Consumes::Nothing,
        NextLeft::None => Consumes::Nothing,
    }
}

// What is next after a right: a letter of the word, or the right item.
pub(crate) fn after_right(letter: bool, flag: bool, c: u32) -> NextLeft
    ensures { result ≡ after_right letter (item flag c) }
{
    if letter {
        if flag {
            NextLeft::Lig(c)
        } else {
            NextLeft::Char(c)
        }
    } else {
        if flag {
            NextLeft::FinalLig(c)
        } else {
            NextLeft::None
        }
    }
}

// Letters read: one more where there is a letter.
pub(crate) fn read_on(letter: bool, n: usize) -> usize
    requires { n < 9223372036854775808 }
    ensures { result ≡ read_on letter n }
{
    if letter { n + 1 } else { n }
}

// The state with another next left and other letters read, once a left was looked up.
pub(crate) fn with_next(next: NextLeft, read: usize, s: State) -> State
    ensures { result ≡ with_next next read s }
{
    State {
        next_left: next,
        op: s.op,
        ops: s.ops,
        read: read,
        given: s.given,
        pending: s.pending,
        pending_boundary: s.pending_boundary,
        consumes_left: Consumes::Nothing,
    }
}

// A left that is a character, or a ligature.
pub(crate) fn is_character(x: NextLeft) -> bool
    ensures { result ≡ is_character x }
{
    match x {
        NextLeft::Boundary => false,
        NextLeft::Char(_) => true,
        NextLeft::Lig(_) => true,
        NextLeft::FinalLig(_) => false,
        NextLeft::None => false,
    }
}

// Its code.
fn next_code(x: NextLeft) -> u32
    ensures { result ≡ next_code x }
{
    match x {
        NextLeft::Boundary => 0,
        NextLeft::Char(c) => c,
        NextLeft::Lig(c) => c,
        NextLeft::FinalLig(c) => c,
        NextLeft::None => 0,
    }
}

// A left without an entry is given as it stands; a left boundary gives nothing.
pub(crate) fn give_left(x: NextLeft, s: State) -> Turned
    ensures { result ≡ give_left x s }
{
    if !is_character(x) {
        return Turned::Goes(s);
    }
    let given = give_character(next_code(x), s);
    Turned::Gives(given)
}
