// The index of a table, into a lent list: one pass over the pairs sets their bits, and one over the lefts counts the
// pairs before each. Linear in both.
#![tactic(auto)]

ghost use Rattle.std.specs.Prelude.{◌≡◌, true, ◌+◌, ◌*◌, ◌/◌, ◌%◌, ◌^◌, ◌<◌, ◌≤◌, length, get_or, set, replicate};
ghost use Rattle.std.specs.Int.Bits.{bit_or};
ghost use Rattle.lang.specs.Every.{every};
ghost use Rattle.captions.specs.Tables.{pair_count};
ghost use Rattle.captions.specs.Form.{key_form};
ghost use Rattle.index.specs.Index.{pairs_before, index_refusal, FillsIndex};
ghost use Rattle.index_fill.specs.Filling.{Filled};

use table_find::left_place;
use table_form::keys::keys_form;
use table_numbers::number_at;
use words::slices::zero_all;

// 7, or 15 where a list of `room` places is too short for an index.
fn index_refusal(pairs: &[i32], room: usize) -> u32
    ensures { result ≡ index_refusal pairs.now room }
{
    if pairs.len() % 6 != 0 {
        return 7;
    }
    if !keys_form(pairs) {
        return 7;
    }
    if 1285 <= room { 0 } else { 15 }
}

// The bit of a left and a right is set.
fn set_bit(index: &mut [u64], left: u32, right: u32)
    requires { (5 * left + right / 64 < length index.old) × (right ≤ 255) }
    ensures { index.new ≡ set index.old (5 * left + right / 64)
        (bit_or (get_or index.old (5 * left + right / 64) 0) (2 ^ (right % 64))) }
{
    let at = 5 * (left as usize) + (right as usize) / 64;
    index[at] = index[at] | (1u64 << ((right % 64) as u64));
}

// The bits of all pairs, in an index of zeros.
fn set_bits(pairs: &[i32], index: &mut [u64])
    requires { (index.old ≡ replicate (length index.old) 0) × (1285 ≤ length index.old)
        × (every (pair_count pairs.now) (key_form pairs.now) ≡ true) }
    ensures { Filled pairs.now (pair_count pairs.now) 0 index.old
        index.new }
{
    for k in 0..pairs.len() / 6 {
        set_bit(
            index,
            left_place(number_at(pairs, k, 0)),
            number_at(pairs, k, 1),
        );
    }
}

// How many pairs come before those of a left, where `from` come before those of the left before it.
fn count_on(pairs: &[i32], from: usize, left: u32) -> usize
    requires { (every (pair_count pairs.now) (key_form pairs.now) ≡ true)
        × (from ≤ pairs_before pairs.now left) }
    ensures { result ≡ pairs_before pairs.now left }
{
    let n = pairs.len() / 6;
    for k in from..n {
        if left <= left_place(number_at(pairs, k, 0)) {
            return k;
        }
    }
    n
}

// The pairs before each left, in an index that has its bits.
fn count_pairs(pairs: &[i32], index: &mut [u64])
    requires in_bounds { (1285 ≤ length index.old) × (every (pair_count pairs.now) (key_form pairs.now) ≡ true) }
    requires filled { Filled pairs.now (pair_count pairs.now) 0 index.old index.old }
    ensures { Filled pairs.now (pair_count pairs.now) 257 index.old
        index.new }
{
    let mut k = 0;
    for left in 0..257 {
        k = count_on(pairs, k, left);
        let at = 5 * (left as usize) + 4;
        index[at] = k as u64;
    }
}

// The index of a table, whose lefts and rights are in range and whose pairs ascend. Answers 0, or the number of its
// refusal.
pub fn fill_index(pairs: &[i32], index: &mut [u64]) -> u32
    ensures { FillsIndex pairs.now index.old result index.new }
{
    zero_all(index);
    let refusal = index_refusal(pairs, index.len());
    if refusal == 0 {
        set_bits(pairs, index);
        count_pairs(pairs, index);
    }
    refusal
}
