// The last four columns of a field after eight blanks: numbers of one, two and three digits, which are most there are.
// What is none of them is read as any part of a field is.
ghost use Rattle.std.specs.Prelude.{◌≡◌, true, ◌+◌, ◌≤◌, length};
ghost use Rattle.std.proofs.Math.Seq.{slice};
ghost use Rattle.columns.specs.Numbers.{read_field};
ghost use Rattle.columns.specs.Scanned.{field_reply, number_reply};

use crate::blanks::two;
use crate::numbers::{Decimal, with_digit, without_sign};
use crate::read_part;

// A byte is a digit, and no lower one than `least`.
fn digit_from(least: u8, b: u8) -> bool
    ensures { result ≡ true → (least ≤ b) × (b ≤ 57) }
{
    least <= b && b <= 57
}

fn one_digit(text: &[u8], from: usize, end: usize) -> Option<i32>
    requires { (from + 1 ≡ end) × (end ≤ length text.now) }
    ensures { field_reply result ≡ number_reply (read_field (slice from end text.now)) }
{
    let a = text[from];
    if digit_from(48, a) {
        return without_sign(Decimal::Value(with_digit(0, a)));
    }
    read_part(text, from, end)
}

fn two_digits(text: &[u8], from: usize, end: usize) -> Option<i32>
    requires { (from + 2 ≡ end) × (end ≤ length text.now) }
    ensures { field_reply result ≡ number_reply (read_field (slice from end text.now)) }
{
    let a = text[from];
    let b = text[from + 1];
    if digit_from(49, a) {
        if digit_from(48, b) {
            return without_sign(Decimal::Value(with_digit(with_digit(0, a), b)));
        }
    }
    read_part(text, from, end)
}

fn three_digits(text: &[u8], from: usize, end: usize) -> Option<i32>
    requires { (from + 3 ≡ end) × (end ≤ length text.now) }
    ensures { field_reply result ≡ number_reply (read_field (slice from end text.now)) }
{
    let a = text[from];
    let b = text[from + 1];
    let c = text[from + 2];
    if digit_from(49, a) {
        if digit_from(48, b) {
            if digit_from(48, c) {
                let tens = with_digit(with_digit(0, a), b);
                return without_sign(Decimal::Value(with_digit(tens, c)));
            }
        }
    }
    read_part(text, from, end)
}

// The number in the last four columns of a field.
pub(crate) fn read_last(text: &[u8], from: usize, end: usize) -> Option<i32>
    requires { (from + 4 ≡ end) × (end ≤ length text.now) }
    ensures { field_reply result ≡ number_reply (read_field (slice from end text.now)) }
{
    if two(text, from) == 8224 {
        if text[from + 2] == 32 {
            return one_digit(text, from + 3, end);
        }
        return two_digits(text, from + 2, end);
    }
    if text[from] == 32 {
        return three_digits(text, from + 1, end);
    }
    read_part(text, from, end)
}
