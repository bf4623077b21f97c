// One turn: the next left is looked up with the next letter, or with the right item.
ghost use Rattle.std.specs.Prelude.{◌≡◌, true, cond, ◌<◌};
ghost use Rattle.words.specs.Words.{number_of};
ghost use Rattle.reading.specs.Items.{plain};
ghost use Rattle.captions.specs.Tables.{found_at};
ghost use Rattle.captions.specs.Steps.{refused, ended, after_right, read_on, with_next, give_left, entered_at};
ghost use Rattle.captions.specs.Steps.{swallows};
ghost use Rattle.captions.specs.Steps.{entry_reads, find_within, turn_with, or_boundary, turn_at_end, turn_at_letter};
ghost use Rattle.captions.specs.Steps.{turn};
ghost use Rattle.captions.specs.Steps.{next_fits};

use super::left::{
    after_right, gathered, give_left, is_character, left_consumed, left_place_of, read_on,
    with_next,
};
use captions::{Answer, NextLeft, State, Step, Turned};
use program_checks::is_letter;
use table_find::find;
use table_numbers::{number_at, record_fits};

// The word is over.
pub(crate) fn ends(s: State) -> Turned
    ensures { result ≡ Turned.Gives (ended s) }
{
    Turned::Gives(Step {
        answer: Answer::End,
        state: s,
    })
}

// A refusal, which leaves the state.
fn refuses(number: u32, s: State) -> Turned
    ensures { result ≡ Turned.Gives (refused number s) }
{
    Turned::Gives(Step {
        answer: Answer::Refused(number),
        state: s,
    })
}

// The ops of entry k are to be given, and its last is next.
fn entered(pairs: &[i32], x: NextLeft, letter: bool, s: State, k: usize) -> State
    requires { s.read < 9223372036854775808 }
    ensures { result ≡ entered_at pairs.now x letter s k }
{
    let code = number_at(pairs, k, 2);
    let flag = number_at(pairs, k, 3) == 1;
    let first = number_at(pairs, k, 4) as usize;
    let count = number_at(pairs, k, 5) as usize;
    let next = after_right(letter, flag, code);
    let read = read_on(letter, s.read);
    let consumes = left_consumed(x);
    State {
        next_left: next,
        op: first,
        ops: count,
        read: read,
        given: s.given,
        pending: s.pending,
        pending_boundary: s.pending_boundary,
        consumes_left: consumes,
    }
}

// A pair without an entry.
fn turn_free(x: NextLeft, letter: bool, y: u32, s: State) -> Turned
    requires { s.read < 9223372036854775808 }
    ensures { result ≡ give_left x (with_next (after_right letter (plain y)) (read_on letter s.read) s) }
{
    let next = after_right(letter, false, y);
    let read = read_on(letter, s.read);
    let after = with_next(next, read, s);
    give_left(x, after)
}

// A left character would be lost: its entry has no ops, and its last is the right as it came.
fn swallows(pairs: &[i32], x: NextLeft, k: usize) -> bool
    ensures { result ≡ swallows pairs.now x k }
{
    if !is_character(x) {
        return false;
    }
    if number_at(pairs, k, 5) != 0 {
        return false;
    }
    number_at(pairs, k, 3) != 1
}

// A pair with entry k.
fn turn_entered(pairs: &[i32], ops: &[i32], x: NextLeft, letter: bool, s: State, k: usize) -> Turned
    requires { s.read < 9223372036854775808 }
    ensures { result ≡ cond (entry_reads pairs.now ops.now x k)
        (Turned.Goes (entered_at pairs.now x letter s k)) (Turned.Gives (refused 7 s)) }
{
    if !record_fits(pairs, ops, k) {
        return refuses(7, s);
    }
    if swallows(pairs, x, k) {
        return refuses(7, s);
    }
    let after = entered(pairs, x, letter, s, k);
    Turned::Goes(after)
}

// The pair of a left and a right; one of them above 255 is not looked up.
fn find_within(pairs: &[i32], left: u32, right: u32) -> Option<usize>
    ensures { result ≡ found_at (find_within pairs.now left right) }
{
    if 256 < left {
        return None;
    }
    if 255 < right {
        return None;
    }
    find(pairs, left, right)
}

// The next left with a right: a letter of the word, or the right item.
fn turn_with(pairs: &[i32], ops: &[i32], x: NextLeft, letter: bool, y: u32, s: State) -> Turned
    requires { (next_fits x ≡ true) × (s.read < 9223372036854775808) }
    ensures { result ≡ turn_with pairs.now ops.now x letter y s }
{
    let left = left_place_of(x);
    match find_within(pairs, left, y) {
        None => turn_free(x, letter, y, s),
        Some(k) => turn_entered(pairs, ops, x, letter, s, k),
    }
}

// At the word's end, with the right item if there is one; an empty word reads as nothing.
fn turn_at_end(pairs: &[i32], ops: &[i32], right: u32, x: NextLeft, s: State) -> Turned
    requires { (next_fits x ≡ true) × (s.read < 9223372036854775808) }
    ensures { result ≡ turn_at_end pairs.now ops.now (or_boundary (number_of right)) x s }
{
    if !is_character(x) {
        return ends(s);
    }
    if right < 2147483648 {
        return turn_with(pairs, ops, x, false, right, s);
    }
    let after = with_next(NextLeft::None, s.read, s);
    give_left(x, after)
}

// 20: a letter of the word that is none.
fn turn_at_letter(pairs: &[i32], ops: &[i32], x: NextLeft, y: u32, s: State) -> Turned
    requires { (next_fits x ≡ true) × (s.read < 9223372036854775808) }
    ensures { result ≡ turn_at_letter pairs.now ops.now x y s }
{
    if is_letter(y) {
        turn_with(pairs, ops, x, true, y, s)
    } else {
        refuses(20, s)
    }
}

// One turn: the next left with the next letter, or with the right item.
pub(crate) fn turn(
    pairs: &[i32],
    ops: &[i32],
    right: u32,
    word: &[u32],
    x: NextLeft,
    s: State,
) -> Turned
    requires { (next_fits x ≡ true) × (s.read < 9223372036854775808) × (s.pending < 9223372036854775808) }
    ensures { result ≡ turn pairs.now ops.now (or_boundary (number_of right))
        word.now x s }
{
    let after = gathered(x, s);
    let read = s.read;
    if read < word.len() {
        turn_at_letter(pairs, ops, x, word[read], after)
    } else {
        turn_at_end(pairs, ops, right, x, after)
    }
}
