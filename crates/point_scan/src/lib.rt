// A size in points, read from the bytes of a decimal (TeX 102, 452).
#![tactic(auto)]

ghost use Rattle.std.specs.Prelude.{◌≡◌, ◌+◌, ◌-◌, ◌≤◌, min, eqb, get_or, take};
ghost use Rattle.points.specs.Scanning.{point_place, only_digits, digits_after, round_decimals, scaled_parts};
ghost use Rattle.points.specs.Scanning.{scaled_of};
ghost use Rattle.points.specs.Scanning.{scanned_as};

use words::slices::item_at;

// Where the first point stands, or the length.
fn point_place(text: &[u8]) -> usize
    ensures { result ≡ point_place text.now }
{
    for (i, b) in text.iter().enumerate() {
        if *b == 46 {
            return i;
        }
    }
    text.len()
}

// Every byte is a digit.
fn only_digits(text: &[u8]) -> bool
    ensures { result ≡ only_digits text.now }
{
    for b in text {
        if *b < 48 {
            return false;
        }
        if 57 < *b {
            return false;
        }
    }
    true
}

// What a byte at a place is above the digit 0, and 0 for one below it.
fn digit_at(text: &[u8], i: usize) -> u32
    ensures { (result ≡ get_or text.now i 0 - 48) × (result ≤ 207) }
{
    let b = item_at(text, i);
    if b < 48 { 0 } else { (b - 48) as u32 }
}

// 2,048 for all that is more.
fn capped_whole(n: u32) -> u32
    ensures { result ≡ min 2048 n }
{
    if 2048 <= n { 2048 } else { n }
}

// The value of digits; 2,048 stands for all that is more.
fn whole_of(text: &[u8]) -> u32
    ensures { result ≡ min 2048 (digits_after 0 text.now) }
{
    let mut n: u32 = 0;
    for i in 0..text.len() {
        n = capped_whole(10 * n + digit_at(text, i));
    }
    n
}

// The first 17 decimals in 65,536ths, rounded.
fn round_decimals(text: &[u8]) -> u32
    ensures { (result ≡ round_decimals (take 17 text.now)) × (result ≤ 2000000) }
{
    let mut a: u32 = 0;
    for k in (0..text.len().min(17)).rev() {
        a = (a + digit_at(text, k) * 131072) / 10;
    }
    (a + 1) / 2
}

// Neither of two lists has anything.
fn both_empty(a: usize, b: usize) -> bool
    ensures { result ≡ eqb (a + b) 0 }
{
    if a == 0 { b == 0 } else { false }
}

// The size of a decimal by its two parts, in scaled points below 2^27, or none where they are not taken.
fn scan_parts(whole: &[u8], decimals: &[u8]) -> Option<u32>
    ensures { result ≡ scanned_as (scaled_parts whole.now decimals.now) }
{
    if !only_digits(whole) {
        return None;
    }
    if !only_digits(decimals) {
        return None;
    }
    if both_empty(whole.len(), decimals.len()) {
        return None;
    }
    let sum = 65536 * whole_of(whole) + round_decimals(decimals);
    if 134217728 <= sum {
        return None;
    }
    Some(sum)
}

// The size that a text says, in scaled points below 2^27, or none where it is not taken.
pub fn scan_points(text: &[u8]) -> Option<u32>
    ensures { result ≡ scanned_as (scaled_of text.now) }
{
    let point = point_place(text);
    let end = text.len();
    if end <= point {
        return scan_parts(text, &text[end..]);
    }
    scan_parts(&text[..point], &text[point + 1..])
}
