// A scaled number as TeX prints it (TeX 103). What has no room in the list is left off and counted all the same; a list
// that is too short is then zeroed.
#![tactic(auto)]

ghost use Rattle.std.specs.Prelude.{◌≡◌, ◌+◌, ◌<◌, ◌≤◌};
ghost use Rattle.words.specs.Words.{number_of};
ghost use Rattle.points.specs.Printing.{leading_digit, whole_text, last_rounded, decimals_of, size_text, scaled_text};
ghost use Rattle.points.specs.Printing.{PrintsScaled};
ghost use Rattle.point_print.specs.Putting.{PutsBytes};

use lang::Written;
use words::slices::{put_item, zero_all};

// The last digit of a number, and nothing where the number is 0. Answers the place after it.
fn put_leading(out: &mut [u8], at: usize, n: u32) -> usize
    requires { at ≤ 100 }
    ensures { PutsBytes out.old at (leading_digit n) result out.new × (result ≤ at + 1) }
{
    if n == 0 {
        return at;
    }
    put_item(out, at, 48 + ((n % 10) as u8));
    at + 1
}

// A number below 100,000 in decimal.
fn put_whole(out: &mut [u8], at: usize, n: u32) -> usize
    requires { at ≤ 90 }
    ensures { PutsBytes out.old at (whole_text n) result out.new × (result ≤ at + 5) }
{
    let tens = n / 10;
    let hundreds = tens / 10;
    let thousands = hundreds / 10;
    let second = put_leading(out, at, thousands / 10);
    let third = put_leading(out, second, thousands);
    let fourth = put_leading(out, third, hundreds);
    let last = put_leading(out, fourth, tens);
    put_item(out, last, 48 + ((n % 10) as u8));
    last + 1
}

// What a digit is taken of: the fifth is rounded.
fn last_rounded(delta: u32, s: u32) -> u32
    requires { (delta ≤ s + 5) × (s < 655360) }
    ensures { result ≡ last_rounded delta s }
{
    if 65536 < delta { s + 32768 - 50000 } else { s }
}

// The decimals of a part of a point: no more than it takes for them to be read as that part.
fn put_decimals(out: &mut [u8], at: usize, part: u32) -> usize
    requires { (at ≤ 100) × (part < 65536) }
    ensures { PutsBytes out.old at (decimals_of part) result out.new }
{
    let mut s = 10 * part + 5;
    let mut delta: u32 = 10;
    let mut next = at;
    // Ends by what is left of the part, and not by a place.
    loop {
        let t = last_rounded(delta, s);
        put_item(out, next, 48 + ((t / 65536) as u8));
        next += 1;
        s = 10 * (t % 65536);
        delta = 10 * delta;
        if s <= delta {
            return next;
        }
    }
}

// A number of 0 or more.
fn put_size(out: &mut [u8], at: usize, n: u32) -> usize
    requires { at ≤ 1 }
    ensures { PutsBytes out.old at (size_text n) result out.new }
{
    let point = put_whole(out, at, n / 65536);
    put_item(out, point, 46);
    put_decimals(out, point + 1, n % 65536)
}

// The number whose 32 bits are w.
fn put_value(out: &mut [u8], w: u32) -> usize
    ensures { PutsBytes out.old 0 (scaled_text (number_of w)) result out.new }
{
    if w < 2147483648 {
        return put_size(out, 0, w);
    }
    put_item(out, 0, 45);
    put_size(out, 1, 4294967295 - w + 1)
}

// The bytes of a scaled number at the front of a list that has room for them, then zeros. Answers how many.
pub fn print_scaled(value: i32, out: &mut [u8]) -> Written
    ensures { PrintsScaled value out.old result out.new }
{
    zero_all(out);
    let count = put_value(out, words::word_of(value));
    if out.len() < count {
        zero_all(out);
        return Written::Refused(15);
    }
    Written::Count(count)
}
