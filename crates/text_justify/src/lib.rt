// Numbers of a list in fields of 12 columns, right-justified (R186), one after the other: blanks, and the numbers over
// them.
#![tactic(auto)]

ghost use Rattle.std.specs.Prelude.{◌≡◌, ◌+◌, ◌≤◌, length};
ghost use Rattle.std.proofs.lemmas.List.Edits.{sets};
ghost use Rattle.columns.specs.Lines.{fields_of};
ghost use Rattle.text_justify.specs.InFields.{numbers_from, five_from, fields_fit, fields_where};

use crate::number::{put_blanks, put_character, put_number};
use words::i32s::word_at;
use words::word_of;

mod number;

// So many fields are taken: there is room for all of them at a place. From a place up to `last` on every place among
// the numbers is below 2^64.
fn fields_fit(last: usize, from: usize, n: usize, at: usize, room: usize) -> bool
    ensures { result ≡ fields_fit last from n at room }
{
    if 6 < n {
        return false;
    }
    if last < from {
        return false;
    }
    if room < 12 * n {
        return false;
    }
    at <= room - 12 * n
}

// The fields of n numbers from a place of the list on. Fields that are not taken are not written.
pub fn put_fields(numbers: &[i32], from: usize, n: usize, out: &mut [u8], at: usize)
    ensures { out.new ≡ fields_where
        (fields_fit 18446744073709551609 from n at (length out.old)) out.old at
        (numbers_from numbers.now from n) }
{
    if !fields_fit(18446744073709551609, from, n, at, out.len()) {
        return;
    }
    put_blanks(out, at, 12 * n);
    let mut next = at;
    for j in 0..n {
        put_number(out, next, word_at(numbers, from + j));
        next += 12;
    }
}

// The fields of five of a pair's six numbers, which are in the list. The one left out says where its ops begin.
fn put_five(pairs: &[i32], first: usize, out: &mut [u8], at: usize)
    requires { (first + 6 ≤ length pairs.now) × (at + 60 ≤ length out.old) }
    ensures { out.new ≡ sets out.old at
        (fields_of (five_from pairs.now first)) }
{
    put_blanks(out, at, 60);
    put_character(out, at, word_of(pairs[first]));
    put_character(out, at + 12, word_of(pairs[first + 1]));
    put_character(out, at + 24, word_of(pairs[first + 2]));
    put_number(out, at + 36, word_of(pairs[first + 3]));
    put_number(out, at + 48, word_of(pairs[first + 5]));
}

// The same, wherever the list ends. Fields that are not taken are not written.
pub fn put_pair_fields(pairs: &[i32], first: usize, out: &mut [u8], at: usize)
    ensures { out.new ≡ fields_where
        (fields_fit 9223372036854775808 first 5 at (length out.old)) out.old at
        (five_from pairs.now first) }
{
    if !fields_fit(9223372036854775808, first, 5, at, out.len()) {
        return;
    }
    if pairs.len() < first + 6 {
        put_fields(pairs, first, 4, out, at);
        put_fields(pairs, first + 5, 1, out, at + 48);
        return;
    }
    put_five(pairs, first, out, at);
}
