// Lines of a column text, written in place: a letter, so many numbers in fields of 12 columns, a line feed (R185,
// R205).
#![tactic(auto)]

ghost use Rattle.std.specs.Prelude.{◌≡◌, ◌+◌, ◌*◌, ◌^◌, ◌<◌, ◌≤◌, length};
ghost use Rattle.columns.specs.Replying.{line_of, pair_line, bytes_of};
ghost use Rattle.text_justify.specs.InFields.{numbers_from};
ghost use Rattle.text_lines.specs.Writing.{lines_from, line_bytes, lines_fit, Puts, PutsWhere};

use text_justify::{put_fields, put_pair_fields};

// A line of n numbers. Answers the place after it.
fn put_line(letter: u8, numbers: &[i32], from: usize, n: usize, out: &mut [u8], at: usize) -> usize
    requires { (n ≤ 6) × (from + 6 < 2 ^ 64) × (at + 2 + 12 * n ≤ length out.old) }
    ensures { Puts (line_bytes (line_of letter (numbers_from numbers.now from n)))
        out.old at result out.new }
{
    out[at] = letter;
    put_fields(numbers, from, n, out, at + 1);
    out[at + 1 + 12 * n] = 10;
    at + 2 + 12 * n
}

// So many lines of n numbers each, from line k on, are taken: there is room for all of them at a place. With k at most
// 2^60 every place among the numbers is below 2^64.
fn lines_fit(n: usize, k: usize, count: usize, at: usize, room: usize) -> bool
    ensures { result ≡ lines_fit n k count at room }
{
    if 6 < n {
        return false;
    }
    if 1152921504606846976 < k {
        return false;
    }
    if room < at {
        return false;
    }
    count <= (room - at) / (12 * n + 2)
}

// P. Answers the place after it. A line that is not taken is not written.
pub fn put_pair(pairs: &[i32], k: usize, out: &mut [u8], at: usize) -> usize
    ensures { PutsWhere (lines_fit 5 k 1 at (length out.old))
        (line_bytes (pair_line pairs.now k)) out.old at result out.new }
{
    if !lines_fit(5, k, 1, at, out.len()) {
        return at;
    }
    out[at] = 80;
    put_pair_fields(pairs, 6 * k, out, at + 1);
    out[at + 61] = 10;
    at + 62
}

// So many lines of n numbers each, from line k of the list on. Answers the place after them. Lines that are not taken
// are not written.
pub fn put_lines(
    letter: u8,
    numbers: &[i32],
    k: usize,
    count: usize,
    n: usize,
    out: &mut [u8],
    at: usize,
) -> usize
    ensures { PutsWhere (lines_fit n k count at (length out.old))
        (bytes_of (lines_from letter n numbers.now k count)) out.old at result out.new }
{
    if !lines_fit(n, k, count, at, out.len()) {
        return at;
    }
    let mut next = at;
    for i in 0..count {
        next = put_line(letter, numbers, n * (k + i), n, out, next);
    }
    next
}
