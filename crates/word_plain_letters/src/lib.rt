// Letters that a loop of their own gives, each written as its items of six numbers: what a run of a word does most
// often. A letter that has no pair with the character left of it lets that stand, and a kern pair (crate
// step_quick_pair) gives its character and its kern. After the loop over what `run_with_options` of ligkern/mod.rs
// returns. Each function is as specs/PlainLetters.antt says.
#![tactic(auto)]

ghost use Rattle.std.specs.Prelude.{◌≡◌, ◌+◌, ◌<◌, ◌≤◌, [], ◌∷◌, length, slice_set};
ghost use Rattle.std.proofs.lemmas.List.Edits.{sets};
ghost use Rattle.words.specs.Words.{number_of};
ghost use Rattle.captions.specs.Steps.{step_of};
ghost use Rattle.captions.specs.Tables.{pair_count};
ghost use Rattle.step_quick.specs.Quick.{found_place};
ghost use Rattle.word_plain_letters.specs.PlainLetters.{six_at, letters_moved, letters_end, MayStand, Stand};
ghost use Rattle.word_plain_letters.specs.PlainLetters.{PairStops, GivesPair, GivesItems, NextPair};

use captions::{Consumes, NextLeft, RunOptions, State};
use step_quick::left::quick_left;
use step_quick_find::found_place;
use step_quick_pair::kern_op;
use words::i32s::word_at;
use words::number_of;

// What is given of a kern pair: the op after its two items, and the code that is then next; 0 where nothing is.
#[derive(Clone, Copy)]
pub struct PairGiven {
    pub op: usize,
    pub next: u32,
}

// Where letters that stand end: the left that is next (one more than its code), how many were given, and the pair that
// stopped them; the number of pairs where none did.
#[derive(Clone, Copy)]
struct PlainEnd {
    left: u32,
    count: usize,
    pair: usize,
}

// The state after letters, how many items were given, and the pair that stopped them; the number of pairs where none
// did.
#[derive(Clone, Copy)]
pub struct LettersGiven {
    pub state: State,
    pub count: usize,
    pub pair: usize,
}

// Number i of a list, which is there, becomes the number whose bits are w.
fn put_in(s: &mut [i32], i: usize, w: u32)
    requires { i < length s.old }
    ensures { s.new ≡ slice_set s.old i (number_of w) }
{
    let x = number_of(w);
    s[i] = x;
}

// Six numbers at a place, which is there.
fn write_six(
    items: &mut [i32],
    at: usize,
    kind: u32,
    value: u32,
    start: u32,
    count: u32,
    left: u32,
    right: u32,
)
    requires { at + 6 ≤ length items.old }
    ensures { items.new ≡ sets items.old at
        (number_of kind ∷ number_of value ∷ number_of start ∷ number_of count ∷ number_of left
        ∷ number_of right ∷ []) }
{
    put_in(items, at, kind);
    put_in(items, at + 1, value);
    put_in(items, at + 2, start);
    put_in(items, at + 3, count);
    put_in(items, at + 4, left);
    put_in(items, at + 5, right);
}

// Six numbers at a place; nothing where there is no room for them.
pub fn put_six(
    items: &mut [i32],
    at: usize,
    kind: u32,
    value: u32,
    start: u32,
    count: u32,
    left: u32,
    right: u32,
)
    ensures { items.new ≡ six_at items.old at
        (number_of kind ∷ number_of value ∷ number_of start ∷ number_of count ∷ number_of left
        ∷ number_of right ∷ []) }
{
    if items.len() < 6 {
        return;
    }
    if items.len() - 6 < at {
        return;
    }
    write_six(items, at, kind, value, start, count, left, right);
}

// The state once n letters more are given, by the code that is then next and the op after the last.
pub fn letters_moved(s: State, code: u32, op: usize, n: usize) -> State
    ensures { result ≡ letters_moved s code op n }
{
    if n == 0 {
        return s;
    }
    let read = std::num::wrapping_add_usize(s.read, n);
    let given = std::num::wrapping_add_usize(s.given, n);
    State {
        next_left: NextLeft::Char(code),
        op: op,
        ops: 0,
        read: read,
        given: given,
        pending: 0,
        pending_boundary: false,
        consumes_left: Consumes::Nothing,
    }
}

// The character and the kern of the kern pair at a place, written from number `at` on; nothing of any other entry, and
// where there is no room.
pub fn give_pair(
    pairs: &[i32],
    ops: &[i32],
    place: usize,
    start: u32,
    items: &mut [i32],
    at: usize,
) -> PairGiven
    ensures { GivesPair pairs.now ops.now place start items.old at result.op
        result.next items.new }
{
    let q = kern_op(pairs, ops, place);
    if q == 0 {
        return PairGiven { op: 0, next: 0 };
    }
    if items.len().saturating_sub(at) < 12 {
        return PairGiven { op: 0, next: 0 };
    }
    write_six(items, at, 0, word_at(ops, 2 * (q - 1) + 1), start, 1, 0, 0);
    write_six(items, at + 6, 2, word_at(ops, 2 * q + 1), 0, 0, 0, 0);
    PairGiven {
        op: q + 1,
        next: word_at(pairs, 6 * place + 2),
    }
}

// At most n letters from number `read` on that have no pair with the left of them are given as they stand, from item k
// on. The loop keeps so little that it stays in registers.
fn give_plain(
    pairs: &[i32],
    word: &[u32],
    left: u32,
    read: usize,
    given: usize,
    items: &mut [i32],
    k: usize,
    n: usize,
) -> PlainEnd
    requires { MayStand word.now read given left n items.old k }
    ensures { Stand (found_place pairs.now) (pair_count pairs.now) word.now read
        given left items.old k result.left result.count items.new
        × PairStops pairs.now word.now (read + result.count) result.left result.pair }
{
    let none = pairs.len() / 6;
    let mut l = left;
    for i in 0..n {
        let y = word[read + i];
        if 255 < y {
            return PlainEnd {
                left: l,
                count: i,
                pair: none,
            };
        }
        let p = found_place(pairs, l, y);
        if p != none {
            return PlainEnd {
                left: l,
                count: i,
                pair: p,
            };
        }
        write_six(items, 6 * (k + i), 0, l - 1, (given + i) as u32, 1, 0, 0);
        l = y + 1;
    }
    PlainEnd {
        left: l,
        count: n,
        pair: none,
    }
}

// Where letters end: i of them were given as m items, and the left is next.
fn letters_end(s: State, left: u32, op: usize, i: usize, m: usize, pair: usize) -> LettersGiven
    requires { 0 < left }
    ensures { result ≡ letters_end s left op i m pair }
{
    let state = letters_moved(s, left - 1, op, i);
    LettersGiven {
        state: state,
        count: m,
        pair: pair,
    }
}

// The letters that a quick state gives as they stand or as kern pairs, written from item k on; none of another state.
pub fn give_letters(
    pairs: &[i32],
    ops: &[i32],
    boundary: i32,
    word: &[u32],
    options: RunOptions,
    s: State,
    items: &mut [i32],
    k: usize,
) -> LettersGiven
    ensures { GivesItems
        (step_of pairs.now ops.now boundary word.now options) s
        items.old k result.state result.count items.new
        × NextPair pairs.now ops.now boundary word.now options result.state
        result.pair }
{
    let none = pairs.len() / 6;
    let mut left = quick_left(ops, boundary, word, options, s);
    if left == 0 {
        return LettersGiven {
            state: s,
            count: 0,
            pair: none,
        };
    }
    if items.len() / 6 < k {
        return LettersGiven {
            state: s,
            count: 0,
            pair: none,
        };
    }
    let mut op = s.op;
    let mut i = 0;
    let mut m = 0;
    let n = word.len().saturating_sub(s.read);
    while i < n {
        let most = (items.len() / 6 - (k + m)).min(n - i);
        let plain = give_plain(
            pairs,
            word,
            left,
            s.read + i,
            s.given + i,
            items,
            k + m,
            most,
        );
        let j = i + plain.count;
        let c = m + plain.count;
        if none <= plain.pair {
            return letters_end(s, plain.left, op, j, c, none);
        }
        let kern = give_pair(
            pairs,
            ops,
            plain.pair,
            (s.given + j) as u32,
            items,
            6 * (k + c),
        );
        if kern.op == 0 {
            return letters_end(s, plain.left, op, j, c, plain.pair);
        }
        left = kern.next + 1;
        op = kern.op;
        m = c + 2;
        i = j + 1;
    }
    letters_end(s, left, op, i, m, none)
}
