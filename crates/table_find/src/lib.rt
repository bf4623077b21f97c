// A pair of a lent table, whatever it holds, found by bisection: a left's place, a pair's key in the order of pairs,
// and the search.
#![tactic(auto)]

ghost use Rattle.std.specs.Prelude.{◌≡◌, ◌+◌, ◌%◌};
ghost use Rattle.captions.specs.Tables.{key_by, key_at, found_at};
ghost use Rattle.captions.specs.Tables as tables;

use table_numbers::number_at;

// A left by its 32 bits: -1 is 0, and c is 1 + c.
pub fn left_place(word: u32) -> u32
    ensures { result ≡ (word + 1) % 4294967296 }
{
    (((word as u64) + 1) % 4294967296) as u32
}

// Pair k's place in the order of pairs.
pub fn key_at(pairs: &[i32], k: usize) -> u64
    ensures { result ≡ key_at pairs.now k }
{
    let left = number_at(pairs, k, 0) as u64;
    let right = number_at(pairs, k, 1) as u64;
    4294967296 * ((left + 1) % 4294967296) + right
}

// The pair of a left (0 the boundary, else 1 + character) and a right character.
pub fn find(pairs: &[i32], left: u32, right: u32) -> Option<usize>
    ensures { result ≡ found_at (tables.find pairs.now (key_by left right)) }
{
    let wanted = 4294967296 * (left as u64) + (right as u64);
    let n = pairs.len() / 6;
    let mut lo = 0;
    let mut hi = n;
    while lo < hi {
        let mid = lo + (hi - lo) / 2;
        if key_at(pairs, mid) < wanted {
            lo = mid + 1;
        } else {
            hi = mid;
        }
    }
    if lo < n {
        if key_at(pairs, lo) == wanted {
            return Some(lo);
        }
    }
    None
}
