// The form of a pair table (R256 to R262). The whole of it is tested by crate table_form_pass; here are the refusal and
// the key of one pair.
//   keys  the keys of all pairs
#![tactic(auto)]

ghost use Rattle.std.specs.Prelude.{◌≡◌};
ghost use Rattle.words.specs.Words.{number_of};
ghost use Rattle.lang.specs.Records.{absent_or};
ghost use Rattle.captions.specs.Form.{comes_after, key_form, table_refusal};

use table_find::key_at;
use table_form_pass::table_form;
use table_numbers::number_at;

pub mod keys;

// Pair k comes after the pair before it.
fn comes_after(pairs: &[i32], k: usize) -> bool
    ensures { result ≡ comes_after pairs.now k }
{
    if k == 0 {
        return true;
    }
    key_at(pairs, k - 1) < key_at(pairs, k)
}

// -1, or a character; the number is given by its 32 bits.
fn is_left(word: u32) -> bool
    ensures { result ≡ absent_or 255 (number_of word) }
{
    word <= 255 || word == 4294967295
}

// Pair k's left and right are in range, and it comes after the pair before it.
pub fn key_form(pairs: &[i32], k: usize) -> bool
    ensures { result ≡ key_form pairs.now k }
{
    if !is_left(number_at(pairs, k, 0)) {
        return false;
    }
    if 255 < number_at(pairs, k, 1) {
        return false;
    }
    comes_after(pairs, k)
}

// 7: a table not of the form.
pub fn table_refusal(pairs: &[i32], ops: &[i32]) -> u32
    ensures { result ≡ table_refusal pairs.now ops.now }
{
    if table_form(pairs, ops) { 0 } else { 7 }
}
