// Decimal digits, and an i32 of them with and without a sign.
ghost use Rattle.std.specs.Prelude.{◌≡◌, ◌+◌, ◌-◌, ◌*◌, ◌<◌, ◌≤◌};
ghost use Rattle.std.proofs.Math.Seq.{slice};
ghost use Rattle.columns.specs.Numbers.{more_digits, unsigned, with_sign, without_sign};
ghost use Rattle.columns.specs.Scanned.{field_reply, number_reply};
ghost use Rattle.text_fields.specs.Steps.{digits_of, WithinText};

use words::number_of;

// The value of digits, or that there are others.
#[derive(Clone, Copy)]
pub(crate) enum Decimal {
    Value(u64),
    Nothing,
}

pub(crate) fn wide(b: u8) -> u64
    ensures { result ≡ b }
{
    b as u64
}

// The value of digits with one more after them.
pub(crate) fn with_digit(n: u64, b: u8) -> u64
    requires { (n < 1000000000000) × (48 ≤ b) }
    ensures { result ≡ 10 * n + (b - 48) }
{
    10 * n + (wide(b) - 48)
}

// The value of the digits of a part of a text.
fn digits(text: &[u8], from: usize, end: usize) -> Decimal
    requires { WithinText text.now from end }
    ensures { digits_of result ≡ more_digits 0 (slice from end text.now) }
{
    let mut n: u64 = 0;
    for i in from..end {
        let b = text[i];
        if b < 48 {
            return Decimal::Nothing;
        }
        if 57 < b {
            return Decimal::Nothing;
        }
        n = with_digit(n, b);
    }
    Decimal::Value(n)
}

// The same where there is one at least, and 0 leads only where it is alone.
pub(crate) fn unsigned(text: &[u8], from: usize, end: usize) -> Decimal
    requires { WithinText text.now from end }
    ensures { digits_of result ≡ unsigned (slice from end text.now) }
{
    if from == end {
        return Decimal::Nothing;
    }
    if text[from] == 48 {
        if end - from == 1 {
            return Decimal::Value(0);
        }
        return Decimal::Nothing;
    }
    digits(text, from, end)
}

// An i32 after a minus sign.
pub(crate) fn with_sign(digits: Decimal) -> Option<i32>
    ensures { field_reply result ≡ number_reply (with_sign (digits_of digits)) }
{
    let Decimal::Value(n) = digits else {
        return None;
    };
    if n == 0 {
        return None;
    }
    if 2147483648 < n {
        return None;
    }
    Some(number_of((4294967296 - n) as u32))
}

// An i32 with no sign.
pub(crate) fn without_sign(digits: Decimal) -> Option<i32>
    ensures { field_reply result ≡ number_reply (without_sign (digits_of digits)) }
{
    let Decimal::Value(n) = digits else {
        return None;
    };
    if 2147483647 < n {
        return None;
    }
    Some(number_of(n as u32))
}
