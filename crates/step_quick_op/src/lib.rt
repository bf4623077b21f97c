// What a quick state gives: the first op of an entry, where it is a character, or the character as it stands where
// there is no entry. What is read is read in bounds. `is_ready` and `quick_step` are the definitions of the same names
// in specs/Quick.antt of crate step_quick.
#![tactic(auto)]

ghost use Rattle.std.specs.Prelude.{◌≡◌, true, ◌+◌, ◌≤◌, ◌<◌};
ghost use Rattle.words.specs.Words.{Word};
ghost use Rattle.reading.specs.Items.{item};
ghost use Rattle.captions.specs.Tables.{pair_count, op_count, number, op_holds};
ghost use Rattle.captions.specs.Steps.{after_right};
ghost use Rattle.table_numbers.specs.Parts.{last_fits};
ghost use Rattle.step_quick.specs.Quick.{has_letter, first_plain, is_entered, is_ready, moved_on, given_plain};
ghost use Rattle.step_quick.specs.Quick.{given_first};
ghost use Rattle.step_quick.specs.Quick.{quick_step};

use captions::{Answer, Consumes, NextLeft, State, Step};
use step_quick::left::{has_letter, plain_code};
use words::i32s::word_at;
use words::word_of;

// Number j of pair k, which is there.
fn number_in(pairs: &[i32], k: usize, j: usize) -> u32
    requires { (k < pair_count pairs.now) × (j < 6) }
    ensures { Word (number pairs.now k j) result }
{
    word_of(pairs[6 * k + j])
}

// Pair k's last has a code and a flag, and equals the right where it is unflagged.
fn last_fits(pairs: &[i32], k: usize) -> bool
    requires { k < pair_count pairs.now }
    ensures { result ≡ last_fits pairs.now k }
{
    let code = number_in(pairs, k, 2);
    if 255 < code {
        return false;
    }
    let flag = number_in(pairs, k, 3);
    if 1 < flag {
        return false;
    }
    if flag == 1 {
        return true;
    }
    code == number_in(pairs, k, 1)
}

// Op i, which is there, holds what its kind must.
fn op_holds(ops: &[i32], i: usize) -> bool
    requires { i < op_count ops.now }
    ensures { result ≡ op_holds ops.now i }
{
    let kind = word_of(ops[2 * i]);
    if kind <= 1 {
        return word_of(ops[2 * i + 1]) <= 255;
    }
    kind == 2
}

// The first of n ops from i on, which are there, is a character, and it and the op after it hold what they must.
fn first_plain(ops: &[i32], i: usize, n: usize) -> bool
    requires { i + n ≤ op_count ops.now }
    ensures { result ≡ first_plain ops.now i n }
{
    if n == 0 {
        return false;
    }
    if word_of(ops[2 * i]) != 0 {
        return false;
    }
    if 255 < word_of(ops[2 * i + 1]) {
        return false;
    }
    if n == 1 {
        return true;
    }
    op_holds(ops, i + 1)
}

// Entry k, which is there, can be read, and its first op is a character.
fn is_entered(pairs: &[i32], ops: &[i32], k: usize) -> bool
    requires { k < pair_count pairs.now }
    ensures { result ≡ is_entered pairs.now ops.now k }
{
    if !last_fits(pairs, k) {
        return false;
    }
    let first = number_in(pairs, k, 4) as usize;
    let count = number_in(pairs, k, 5) as usize;
    if ops.len() / 2 < first + count {
        return false;
    }
    first_plain(ops, first, count)
}

// There is no entry k; or there is, it can be read, and its first op is a character.
pub fn is_ready(pairs: &[i32], ops: &[i32], k: usize) -> bool
    ensures { result ≡ is_ready pairs.now ops.now k }
{
    if pairs.len() / 6 <= k {
        return true;
    }
    is_entered(pairs, ops, k)
}

// One letter more is read and given: what is next, and the ops after it.
fn moved_on(next: NextLeft, op: usize, ops: usize, s: State) -> State
    requires { (s.read < 9223372036854775808) × (s.given < s.read) }
    ensures { result ≡ moved_on next op ops s }
{
    State {
        next_left: next,
        op: op,
        ops: ops,
        read: s.read + 1,
        given: s.given + 1,
        pending: 0,
        pending_boundary: false,
        consumes_left: Consumes::Nothing,
    }
}

// The character as it stands; the letter is next.
fn given_plain(word: &[u32], s: State) -> Step
    requires { has_letter word.now s ≡ true }
    ensures { result ≡ given_plain word.now s }
{
    let next = s.next_left;
    let read = s.read;
    let moved = moved_on(NextLeft::Char(word[read]), s.op, 0, s);
    Step {
        answer: Answer::Char(plain_code(next), s.given),
        state: moved,
    }
}

// What is next after an entry's last, a letter of the word.
fn after_letter(flag: bool, c: u32) -> NextLeft
    ensures { result ≡ after_right true (item flag c) }
{
    if flag {
        NextLeft::Lig(c)
    } else {
        NextLeft::Char(c)
    }
}

// The first op of entry k, which is there; its other ops are to be given, and its last is next.
fn given_first(pairs: &[i32], ops: &[i32], k: usize, s: State) -> Step
    requires { (k < pair_count pairs.now) × (s.read < 9223372036854775808) × (s.given < s.read) }
    ensures { result ≡ given_first pairs.now ops.now k s }
{
    let first = number_in(pairs, k, 4) as usize;
    let count = number_in(pairs, k, 5) as usize;
    let next = after_letter(number_in(pairs, k, 3) == 1, number_in(pairs, k, 2));
    let more = count.saturating_sub(1);
    let moved = moved_on(next, first + 1, more, s);
    Step {
        answer: Answer::Char(word_at(ops, 2 * first + 1), s.given),
        state: moved,
    }
}

// The step that a quick state gives, by the place of its pair; 7 where there is no letter.
pub fn quick_step(pairs: &[i32], ops: &[i32], word: &[u32], k: usize, s: State) -> Step
    ensures { result ≡ quick_step pairs.now ops.now word.now k s }
{
    if !has_letter(word, s) {
        return Step {
            answer: Answer::Refused(7),
            state: s,
        };
    }
    if pairs.len() / 6 <= k {
        return given_plain(word, s);
    }
    given_first(pairs, ops, k, s)
}
