// Letters that have no pair with the character left of them, and kern pairs, by an index over the table: what
// `give_letters` of crate word_plain_letters does, with the index for its bisection. They are the steps of crate
// index_step, in a loop of their own.
#![tactic(auto)]

ghost use Rattle.std.specs.Prelude.{◌≡◌, ◌<◌, ◌≤◌, length};
ghost use Rattle.index.specs.Index.{has_bit};
ghost use Rattle.word_plain_letters.specs.PlainLetters.{GivesItems, MayStand, Stand};
ghost use Rattle.index_step.specs.Indexed.{indexed_step_of};
ghost use Rattle.index_plain_letters.specs.IndexedLetters.{bit_place, letters_done};

use captions::{RunOptions, State};
use index::place_by;
use step_quick::left::quick_left;
use word_plain_letters::{give_pair, letters_moved, put_six};

// Where a run stands, and how many items it has given.
#[derive(Clone, Copy)]
pub struct LettersSet {
    pub state: State,
    pub count: usize,
}

// Where letters that stand end: the left that is next (one more than its code), and how many were set.
#[derive(Clone, Copy)]
struct PlainSet {
    left: u32,
    count: usize,
}

// The bit of a left and a right, whose number is there, is set.
fn bit_in(index: &[u64], left: u32, right: u32) -> bool
    requires { (1285 ≤ length index.now) × (left ≤ 256) × (right ≤ 255) }
    ensures { result ≡ has_bit index.now left right }
{
    let word = index[5 * (left as usize) + (right as usize) / 64];
    (word >> ((right % 64) as u64)) % 2 == 1
}

// At most n letters from number `read` on that have no bit with the left of them are set as they stand, from item k on.
// The index is as long as it has to be, and the loop keeps so little that it stays in registers.
fn set_plain(
    index: &[u64],
    word: &[u32],
    left: u32,
    read: usize,
    given: usize,
    items: &mut [i32],
    k: usize,
    n: usize,
) -> PlainSet
    requires { MayStand word.now read given left n items.old k × (1285 ≤ length index.now) }
    ensures { Stand (bit_place index.now) 0 word.now read given left
        items.old k result.left result.count items.new }
{
    let mut l = left;
    for i in 0..n {
        let y = word[read + i];
        if 255 < y {
            return PlainSet { left: l, count: i };
        }
        if bit_in(index, l, y) {
            return PlainSet { left: l, count: i };
        }
        put_six(items, 6 * (k + i), 0, l - 1, (given + i) as u32, 1, 0, 0);
        l = y + 1;
    }
    PlainSet { left: l, count: n }
}

// Where letters end: i of them were given as m items, and the left is next.
fn letters_done(s: State, left: u32, op: usize, i: usize, m: usize) -> LettersSet
    requires { 0 < left }
    ensures { result ≡ letters_done s left op i m }
{
    let state = letters_moved(s, left - 1, op, i);
    LettersSet {
        state: state,
        count: m,
    }
}

// The letters from a state on that have no pair or a kern pair, written from item k on; none where the state is not
// quick, and none by an index that is too short.
pub fn set_letters(
    index: &[u64],
    pairs: &[i32],
    ops: &[i32],
    boundary: i32,
    word: &[u32],
    options: RunOptions,
    s: State,
    items: &mut [i32],
    k: usize,
) -> LettersSet
    ensures { GivesItems
        (indexed_step_of index.now pairs.now ops.now boundary
        word.now options) s items.old k result.state result.count items.new }
{
    let mut left = quick_left(ops, boundary, word, options, s);
    if left == 0 {
        return LettersSet { state: s, count: 0 };
    }
    if items.len() / 6 < k {
        return LettersSet { state: s, count: 0 };
    }
    if index.len() < 1285 {
        return LettersSet { state: s, count: 0 };
    }
    let mut op = s.op;
    let mut i = 0;
    let mut m = 0;
    let n = word.len().saturating_sub(s.read);
    while i < n {
        let most = (items.len() / 6 - (k + m)).min(n - i);
        let plain = set_plain(
            index,
            word,
            left,
            s.read + i,
            s.given + i,
            items,
            k + m,
            most,
        );
        let j = i + plain.count;
        let c = m + plain.count;
        if n <= j {
            return letters_done(s, plain.left, op, j, c);
        }
        let y = word[s.read + j];
        if 255 < y {
            return letters_done(s, plain.left, op, j, c);
        }
        let p = place_by(index, pairs, plain.left, y);
        let kern = give_pair(pairs, ops, p, (s.given + j) as u32, items, 6 * (k + c));
        if kern.op == 0 {
            return letters_done(s, plain.left, op, j, c);
        }
        left = kern.next + 1;
        op = kern.op;
        m = c + 2;
        i = j + 1;
    }
    letters_done(s, left, op, i, m)
}
