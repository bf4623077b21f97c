// Reals, the values of kerns (R454; PLtoTF 62 to 66).
#![tactic(auto)]

ghost use Rattle.std.specs.Prelude.{◌≡◌, false, cond, ◌-◌, ◌<◌, ◌≤◌, eqb, length, drop};
ghost use Rattle.std.proofs.Math.Option.{none, some};
ghost use Rattle.std.proofs.Math.Seq.{slice};
ghost use Rattle.property_lists.specs.Chars.{one_of};
ghost use Rattle.property_lists.specs.Reals.{decimal_sum};
ghost use Rattle.property_lists.specs.Values.{is_sign, past_signs, whole_digits, bits_of, real_from};
ghost use Rattle.property_lists.specs.Values.{typed_real, real_value, Scans};
ghost use Rattle.pl_reals.specs.Places.{FiguresEnd, ReadsDecimals};

use pl_blanks::past_blanks;
use pl_bytes::{is_figure, upper_case};
use property_lists::ValueRead;

// A blank or a sign.
fn is_sign(held: bool, b: u8) -> bool
    ensures { result ≡ is_sign held b }
{
    if b == 10 {
        return true;
    }
    if b == 13 {
        return true;
    }
    if held {
        return false;
    }
    if b == 32 {
        return true;
    }
    if b == 43 {
        return true;
    }
    b == 45
}

// Where signs end: nowhere after a carriage return.
fn signs_end(text: &[u8], held: bool, minus: u32, i: usize) -> ValueRead
    requires { i ≤ length text.now }
    ensures { Scans (cond held none (some (minus, drop i text.now))) text.now i 0 result }
{
    if held {
        return ValueRead::Refused;
    }
    ValueRead::Value(minus, i)
}

// A minus sign turns the sign.
fn turned(minus: u32, b: u8) -> u32
    requires { minus ≤ 1 }
    ensures { (result ≡ cond (eqb b 45) (1 - minus) minus) × (result ≤ 1) }
{
    if b == 45 {
        return 1 - minus;
    }
    minus
}

// Signs and blanks.
fn past_signs(text: &[u8], at: usize) -> ValueRead
    requires { at ≤ length text.now }
    ensures { Scans (past_signs false 0 (drop at text.now)) text.now at 0 result }
{
    let mut held = false;
    let mut minus: u32 = 0;
    for i in at..text.len() {
        let b = text[i];
        if !is_sign(held, b) {
            return signs_end(text, held, minus, i);
        }
        minus = turned(minus, b);
        held = b == 13;
    }
    signs_end(text, held, minus, text.len())
}

fn wide(b: u8) -> u32
    ensures { result ≡ b }
{
    b as u32
}

// The number of a digit; 0 of a byte below the digits.
fn digit_of(b: u8) -> u32
    ensures { (result ≡ b - 48) × (result ≤ 207) }
{
    if b < 48 {
        return 0;
    }
    wide(b) - 48
}

// The whole part.
fn whole_digits(text: &[u8], at: usize) -> ValueRead
    requires { at ≤ length text.now }
    ensures { Scans (whole_digits 0 (drop at text.now)) text.now at 0 result }
{
    let mut n: u32 = 0;
    for i in at..text.len() {
        let b = text[i];
        if !is_figure(b) {
            return ValueRead::Value(n, i);
        }
        let m = 10 * n + digit_of(b);
        if 2048 <= m {
            return ValueRead::Refused;
        }
        n = m;
    }
    ValueRead::Value(n, text.len())
}

// Where the digits from a place on end.
fn figures_end(text: &[u8], at: usize) -> usize
    requires { at ≤ length text.now }
    ensures { FiguresEnd text.now at result }
{
    for i in at..text.len() {
        if !is_figure(text[i]) {
            return i;
        }
    }
    text.len()
}

// What decimals come to, from the last to the first.
fn decimal_sum(text: &[u8], from: usize, end: usize) -> u32
    requires { (from ≤ end) × (end ≤ length text.now) }
    ensures { (result ≡ decimal_sum (slice from end text.now)) × (result ≤ 500000000) }
{
    let mut a: u32 = 0;
    for k in (from..end).rev() {
        a = 2097152 * digit_of(text[k]) + a / 10;
    }
    a
}

// What follows a whole part: decimals in 2^-20, and the place after them.
#[derive(Clone, Copy)]
struct Decimals {
    pub(crate) value: u32,
    pub(crate) next: usize,
}

fn decimals_at(text: &[u8], at: usize) -> Decimals
    requires { at ≤ length text.now }
    ensures { ReadsDecimals text.now at result }
{
    if at < text.len() {
        if text[at] == 46 {
            let end = figures_end(text, at + 1);
            let seven = (end - (at + 1)).min(7);
            let value = (decimal_sum(text, at + 1, at + 1 + seven) + 10) / 20;
            return Decimals {
                value: value,
                next: end,
            };
        }
    }
    Decimals { value: 0, next: at }
}

// The 32 bits of a number with its sign.
fn bits_of(minus: u32, m: u32) -> u32
    requires { m < 2147483648 }
    ensures { result ≡ bits_of minus m }
{
    if minus == 1 {
        if m == 0 {
            return 0;
        }
        return 4294967295 - m + 1;
    }
    m
}

fn long(w: u32) -> u64
    ensures { result ≡ w }
{
    w as u64
}

// A real by its sign and whole part.
fn real_from(text: &[u8], at: usize, minus: u32, whole: u32) -> ValueRead
    requires { at ≤ length text.now }
    ensures { Scans (real_from minus whole (drop at text.now)) text.now at 0 result }
{
    let decimals = decimals_at(text, at);
    let m = 1048576 * long(whole) + long(decimals.value);
    if m < 2147483648 {
        return ValueRead::Value(bits_of(minus, m as u32), decimals.next);
    }
    ValueRead::Refused
}

// The letter of a real's type.
fn is_real(t: u8) -> bool
    ensures { result ≡ one_of (eqb t 82) (eqb t 68) }
{
    if t == 82 {
        return true;
    }
    t == 68
}

// R or D, signs, the whole part and what follows it.
fn typed_real(text: &[u8], at: usize) -> ValueRead
    requires { at ≤ length text.now }
    ensures { Scans (typed_real (drop at text.now)) text.now at 0 result }
{
    if text.len() <= at {
        return ValueRead::Refused;
    }
    if !is_real(upper_case(text[at])) {
        return ValueRead::Refused;
    }
    let ValueRead::Value(minus, i) = past_signs(text, at + 1) else {
        return ValueRead::Refused;
    };
    let ValueRead::Value(whole, j) = whole_digits(text, i) else {
        return ValueRead::Refused;
    };
    real_from(text, j, minus, whole)
}

// The 32 bits of a real.
pub fn real_value(text: &[u8], at: usize) -> ValueRead
    ensures { Scans (real_value (drop at text.now)) text.now at 0 result }
{
    let Some(i) = past_blanks(text, at) else {
        return ValueRead::Refused;
    };
    typed_real(text, i)
}
