// A byte by its type: C, D, O, H and F (PLtoTF 51 to 56).
ghost use Rattle.std.specs.Prelude.{◌≡◌, ◌+◌, ◌≤◌, length, drop};
ghost use Rattle.property_lists.specs.Values.{figure_of, byte_digits, char_value, weight_of, slope_of, expansion_of};
ghost use Rattle.property_lists.specs.Values.{face_value};
ghost use Rattle.property_lists.specs.Values.{typed_byte, Scans};

use pl_bytes::{is_capital, is_figure, is_visible, upper_case};
use property_lists::ValueRead;

fn wide(b: u8) -> u32
    ensures { result ≡ b }
{
    b as u32
}

// A digit's number.
fn figure_of(b: u8) -> u32
    ensures { (result ≡ figure_of b) × (result ≤ 255) }
{
    if is_figure(b) {
        return wide(b) - 48;
    }
    let c = upper_case(b);
    if is_capital(c) {
        return wide(c) - 55;
    }
    99
}

// Digits of a base.
fn byte_digits(text: &[u8], at: usize, base: u32) -> ValueRead
    requires { (at ≤ length text.now) × (base ≤ 16) }
    ensures { Scans (byte_digits base 0 (drop at text.now)) text.now at 0 result }
{
    let mut n: u32 = 0;
    for i in at..text.len() {
        let d = figure_of(text[i]);
        if base <= d {
            return ValueRead::Value(n, i);
        }
        if 255 < base * n + d {
            return ValueRead::Refused;
        }
        n = base * n + d;
    }
    ValueRead::Value(n, text.len())
}

// A character itself.
fn char_value(text: &[u8], at: usize) -> ValueRead
    requires { at ≤ length text.now }
    ensures { Scans (char_value (drop at text.now)) text.now at 0 result }
{
    if at < text.len() {
        let b = text[at];
        if is_visible(b) {
            return ValueRead::Value(wide(b), at + 1);
        }
    }
    ValueRead::Refused
}

fn weight_of(b: u8) -> u32
    ensures { (result ≡ weight_of b) × (result ≤ 18) }
{
    if b == 77 {
        return 0;
    }
    if b == 66 {
        return 2;
    }
    if b == 76 {
        return 4;
    }
    18
}

fn slope_of(b: u8) -> u32
    ensures { (result ≡ slope_of b) × (result ≤ 18) }
{
    if b == 82 {
        return 0;
    }
    if b == 73 {
        return 1;
    }
    18
}

fn expansion_of(b: u8) -> u32
    ensures { (result ≡ expansion_of b) × (result ≤ 18) }
{
    if b == 82 {
        return 0;
    }
    if b == 67 {
        return 6;
    }
    if b == 69 {
        return 12;
    }
    18
}

// A face code.
fn face_value(text: &[u8], at: usize) -> ValueRead
    requires { at ≤ length text.now }
    ensures { Scans (face_value (drop at text.now)) text.now at 0 result }
{
    if text.len() - at < 3 {
        return ValueRead::Refused;
    }
    let weight = weight_of(upper_case(text[at]));
    let slope = slope_of(upper_case(text[at + 1]));
    let expansion = expansion_of(upper_case(text[at + 2]));
    if weight + slope + expansion < 18 {
        return ValueRead::Value(weight + slope + expansion, at + 3);
    }
    ValueRead::Refused
}

// By the letter of its type.
pub(crate) fn typed_byte(text: &[u8], at: usize, t: u8) -> ValueRead
    requires { at ≤ length text.now }
    ensures { Scans (typed_byte t (drop at text.now)) text.now at 0 result }
{
    if t == 67 {
        return char_value(text, at);
    }
    if t == 68 {
        return byte_digits(text, at, 10);
    }
    if t == 79 {
        return byte_digits(text, at, 8);
    }
    if t == 72 {
        return byte_digits(text, at, 16);
    }
    if t == 70 {
        return face_value(text, at);
    }
    ValueRead::Refused
}
