// The form of a pair table (R256 to R262), tested in one pass. Each pair is tested against the key of the pair before
// it and the place where the ops of that pair end. So every op is tested once, with the pair that it is of: the ops of
// the pairs are all the ops, one pair's after the other's.
#![tactic(auto)]

ghost use Rattle.std.specs.Prelude.{◌≡◌, ◌+◌, ◌/◌, ◌%◌, ◌<◌, ◌≤◌, length};
ghost use Rattle.captions.specs.Tables.{op_count, key_at};
ghost use Rattle.captions.specs.Form.{sizes_form, table_form};
ghost use Rattle.table_form_pass.specs.Parts.{codes_form, pair_passes, content_form};

use pair_ops::ops_pass;
use table_find::left_place;
use words::word_of;

mod pair_ops;

// The right in range, the last with a code and a flag, and an unflagged last equal to the right; all by their 32 bits.
fn codes_form(right: u32, code: u32, flag: u32) -> bool
    ensures { result ≡ codes_form right code flag }
{
    if 255 < right {
        return false;
    }
    if code == right {
        return flag <= 1;
    }
    flag == 1 && code <= 255
}

// The place in the order of pairs of the pair at number p.
fn key_in(pairs: &[i32], p: usize) -> u64
    requires { (p + 5 < length pairs.now) × (p % 6 ≡ 0) }
    ensures { result ≡ key_at pairs.now (p / 6) }
{
    let place = left_place(word_of(pairs[p])) as u64;
    4294967296 * place + (word_of(pairs[p + 1]) as u64)
}

// The pair at number p is of the form but for the order, if the ops of the pair before it end at op at; and its ops
// fit.
fn pair_passes(pairs: &[i32], ops: &[i32], p: usize, at: usize) -> bool
    requires p_in_bounds { (p + 5 < length pairs.now) × (p % 6 ≡ 0) }
    requires at_bound { at ≤ op_count ops.now }
    ensures { result ≡ pair_passes pairs.now ops.now (p / 6) at }
{
    let left = word_of(pairs[p]);
    let flag = word_of(pairs[p + 3]);
    if !codes_form(word_of(pairs[p + 1]), word_of(pairs[p + 2]), flag) {
        return false;
    }
    if word_of(pairs[p + 4]) as usize != at {
        return false;
    }
    let end = at + (word_of(pairs[p + 5]) as usize);
    if ops.len() / 2 < end {
        return false;
    }
    ops_pass(ops, left, flag, at, end)
}

// Every op fits, every pair is of the form, and no op is left over. A pair's key is at least the number after that of
// the pair before it.
fn pairs_form(pairs: &[i32], ops: &[i32]) -> bool
    requires { length pairs.now % 6 ≡ 0 }
    ensures { result ≡ content_form pairs.now ops.now }
{
    let mut least: u64 = 0;
    let mut at: usize = 0;
    for k in 0..pairs.len() / 6 {
        let p = 6 * k;
        let key = key_in(pairs, p);
        if key < least {
            return false;
        }
        if !pair_passes(pairs, ops, p, at) {
            return false;
        }
        least = key + 1;
        at = at + (word_of(pairs[p + 5]) as usize);
    }
    at == ops.len() / 2
}

// Whole pairs, whole ops, and no more ops than an i32 counts.
fn sizes_form(pairs: &[i32], ops: &[i32]) -> bool
    ensures { result ≡ sizes_form pairs.now ops.now }
{
    if pairs.len() % 6 != 0 {
        return false;
    }
    if ops.len() % 2 != 0 {
        return false;
    }
    ops.len() / 2 <= 2147483647
}

// The table is of the form.
pub fn table_form(pairs: &[i32], ops: &[i32]) -> bool
    ensures { result ≡ table_form pairs.now ops.now }
{
    if !sizes_form(pairs, ops) {
        return false;
    }
    pairs_form(pairs, ops)
}
