// The table's seven-bit test, after `CompiledProgram::is_seven_bit_safe` of ligkern/mod.rs: what any pair of seven-bit
// characters becomes is of seven-bit characters, in a table that is of the form.
#![tactic(auto)]

ghost use Rattle.std.specs.Prelude.{◌≡◌, true, ◌+◌, ◌<◌, ◌≤◌};
ghost use Rattle.lang.specs.Every.{every};
ghost use Rattle.captions.specs.Tables.{pair_count, op_count, record_fits};
ghost use Rattle.captions.specs.Form.{table_refusal};
ghost use Rattle.captions.specs.Replies.{told_reply};
ghost use Rattle.captions.specs.Queries.{op_is_seven_bit, becomes_seven_bit, pair_is_safe, safe_reply};

use captions::Told;
use table_find::left_place;
use table_form::table_refusal;
use table_numbers::{kind_at, number_at, value_at};

// Op i is a kern, or a seven-bit character.
fn op_is_seven_bit(ops: &[i32], i: usize) -> bool
    requires { i ≤ op_count ops.now }
    ensures { result ≡ op_is_seven_bit ops.now i }
{
    if kind_at(ops, i) == 2 {
        return true;
    }
    value_at(ops, i) < 128
}

// The same of `count` ops from `first` on.
fn ops_are_seven_bit(ops: &[i32], first: usize, count: usize) -> bool
    requires { first + count ≤ op_count ops.now }
    ensures { result ≡ every count (λ i. op_is_seven_bit ops.now (first + i)) }
{
    for i in 0..count {
        if !op_is_seven_bit(ops, first + i) {
            return false;
        }
    }
    true
}

// Pair k becomes seven-bit characters.
fn becomes_seven_bit(pairs: &[i32], ops: &[i32], k: usize) -> bool
    requires k_bound { k < pair_count pairs.now }
    requires k_value { record_fits pairs.now ops.now k ≡ true }
    ensures { result ≡ becomes_seven_bit pairs.now ops.now k }
{
    let first = number_at(pairs, k, 4) as usize;
    let count = number_at(pairs, k, 5) as usize;
    if !ops_are_seven_bit(ops, first, count) {
        return false;
    }
    number_at(pairs, k, 2) < 128
}

// The same, where pair k is of seven-bit characters.
fn pair_is_safe(pairs: &[i32], ops: &[i32], k: usize) -> bool
    requires k_bound { k < pair_count pairs.now }
    requires k_value { record_fits pairs.now ops.now k ≡ true }
    ensures { result ≡ pair_is_safe pairs.now ops.now k }
{
    if 128 < left_place(number_at(pairs, k, 0)) {
        return true;
    }
    if 128 <= number_at(pairs, k, 1) {
        return true;
    }
    becomes_seven_bit(pairs, ops, k)
}

// The same of every pair.
fn all_are_safe(pairs: &[i32], ops: &[i32]) -> bool
    requires { table_refusal pairs.now ops.now ≡ 0 }
    ensures { result ≡ every (pair_count pairs.now)
        (pair_is_safe pairs.now ops.now) }
{
    for k in 0..pairs.len() / 6 {
        if !pair_is_safe(pairs, ops, k) {
            return false;
        }
    }
    true
}

// Whether any pair of seven-bit characters, the left boundary among them, becomes seven-bit characters.
pub fn is_seven_bit_safe(pairs: &[i32], ops: &[i32]) -> Told
    ensures { told_reply result ≡ safe_reply pairs.now ops.now }
{
    let refusal = table_refusal(pairs, ops);
    if refusal != 0 {
        return Told::Refused(refusal);
    }
    Told::Is(all_are_safe(pairs, ops))
}
