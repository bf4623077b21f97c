// A pair looked up by an index over the table: a bit is tested, and the ones below it are counted. The index may hold
// anything: what it says of a place is checked by the pair that stands there. Crate index_fill writes the index of a
// table.
#![tactic(auto)]

ghost use Rattle.std.specs.Prelude.{◌≡◌, ◌+◌, ◌*◌, ◌/◌, ◌%◌, ◌<◌, ◌≤◌, eqb, get_or};
ghost use Rattle.captions.specs.Tables.{pair_count, key_by, key_at};
ghost use Rattle.index.specs.Index.{has_bit, ones_from, ones_below, looked_up};
ghost use Rattle.index.specs.Index.{looked_place};

use table_find::left_place;

// What an index says of a left and a right: they have no pair; the pair's place; or a place at which it does not stand.
#[derive(Clone, Copy)]
pub enum Looked {
    Missing,
    At(usize),
    Wrong,
}

// Number i of an index; 0 past the last.
fn index_at(index: &[u64], i: usize) -> u64
    ensures { result ≡ get_or index.now i 0 }
{
    if i < index.len() { index[i] } else { 0 }
}

// The bit of a left (0 the boundary, else 1 + character) and a right is set.
pub fn has_bit(index: &[u64], left: u32, right: u32) -> bool
    ensures { result ≡ has_bit index.now left right }
{
    if 255 < right {
        return false;
    }
    let word = index_at(index, 5 * (left as usize) + (right as usize) / 64);
    (word >> ((right % 64) as u64)) % 2 == 1
}

// How many ones the w numbers from `at` on have.
fn ones_from(index: &[u64], at: usize, w: usize) -> u32
    requires { (at ≤ 21474836475) × (w ≤ 3) }
    ensures { (result ≡ ones_from index.now at w) × (result ≤ 64 * w) }
{
    let mut n = 0;
    for v in 0..w {
        n += u64::count_ones(index_at(index, at + v));
    }
    n
}

// How many bits of a left are set below that of a right.
fn ones_below(index: &[u64], left: u32, right: u32) -> u32
    requires { right ≤ 255 }
    ensures { (result ≡ ones_below index.now left right) × (result ≤ 256) }
{
    let at = 5 * (left as usize);
    let w = (right as usize) / 64;
    let whole = ones_from(index, at, w);
    let word = index_at(index, at + w);
    whole + u64::count_ones(word % (1u64 << ((right % 64) as u64)))
}

// Pair k is that of a left and a right.
fn is_pair(pairs: &[i32], k: usize, left: u32, right: u32) -> bool
    requires { k < pair_count pairs.now }
    ensures { result ≡ eqb (key_at pairs.now k) (key_by left right) }
{
    if words::i32s::word_at(pairs, 6 * k + 1) != right {
        return false;
    }
    left_place(words::i32s::word_at(pairs, 6 * k)) == left
}

// The pair of a left and a right, by the index.
pub fn look_up(index: &[u64], pairs: &[i32], left: u32, right: u32) -> Looked
    ensures { result ≡ looked_up index.now pairs.now left right }
{
    if !has_bit(index, left, right) {
        return Looked::Missing;
    }
    let n = pairs.len() / 6;
    let before = index_at(index, 5 * (left as usize) + 4);
    if (n as u64) <= before {
        return Looked::Wrong;
    }
    let k = (before as usize) + (ones_below(index, left, right) as usize);
    if n <= k {
        return Looked::Wrong;
    }
    if is_pair(pairs, k, left, right) {
        Looked::At(k)
    } else {
        Looked::Wrong
    }
}

// The place of the pair of a left and a right, by the index; the number of pairs where there is none, and one more
// where the index is wrong.
pub fn place_by(index: &[u64], pairs: &[i32], left: u32, right: u32) -> usize
    ensures { result ≡ looked_place (pair_count pairs.now)
        (looked_up index.now pairs.now left right) }
{
    let n = pairs.len() / 6;
    match look_up(index, pairs, left, right) {
        Looked::Missing => n,
        Looked::At(k) => k,
        Looked::Wrong => n + 1,
    }
}
