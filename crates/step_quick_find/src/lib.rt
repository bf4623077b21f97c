// The place of a pair, by the bisection of crate table_find: the left is compared first, and the right only where it
// decides. What is read is read in bounds. `found_place` is the definition of the same name in specs/Quick.antt of
// crate step_quick.
#![tactic(auto)]

ghost use Rattle.std.specs.Prelude.{◌≡◌, ◌<◌, nat_lt};
ghost use Rattle.captions.specs.Tables.{pair_count, left_place, number, key_by, key_at, place_for};
ghost use Rattle.step_quick.specs.Quick.{found_place};

use words::word_of;

// The left of pair k, which is there: -1 is 0, and c is 1 + c.
fn left_in(pairs: &[i32], k: usize) -> u32
    requires { k < pair_count pairs.now }
    ensures { result ≡ left_place (number pairs.now k 0) }
{
    std::num::wrapping_add_u32(word_of(pairs[6 * k]), 1)
}

// Pair k, which is there, comes before a left and a right. That its right is a word is learnt by reading it, which
// compiling leaves out; it is compared only where the left does not decide.
fn comes_before(pairs: &[i32], k: usize, left: u32, right: u32) -> bool
    requires { k < pair_count pairs.now }
    ensures { result ≡ nat_lt (key_at pairs.now k) (key_by left right) }
{
    let place = left_in(pairs, k);
    word_of(pairs[6 * k + 1]);
    if place < left {
        return true;
    }
    if place != left {
        return false;
    }
    word_of(pairs[6 * k + 1]) < right
}

// Where bisection for a left and a right ends.
fn place_for(pairs: &[i32], left: u32, right: u32) -> usize
    ensures { result ≡ place_for pairs.now (key_by left right) }
{
    let mut lo = 0;
    let mut hi = pairs.len() / 6;
    while lo < hi {
        let mid = (lo + hi) / 2;
        if comes_before(pairs, mid, left, right) {
            lo = mid + 1;
        } else {
            hi = mid;
        }
    }
    lo
}

// The place of the pair of a left (0 the boundary, else 1 + character) and a right character; the number of pairs where
// there is none.
pub fn found_place(pairs: &[i32], left: u32, right: u32) -> usize
    ensures { result ≡ found_place pairs.now left right }
{
    let n = pairs.len() / 6;
    let k = place_for(pairs, left, right);
    if n <= k {
        return n;
    }
    if word_of(pairs[6 * k + 1]) != right {
        return n;
    }
    if left_in(pairs, k) != left {
        return n;
    }
    k
}
