// A number in a field of 12 columns, right-justified: its digits over blanks. Numbers of few digits, which are most
// there are, are written here.
ghost use Rattle.std.specs.Prelude.{◌≡◌, [], ◌∷◌, ◌+◌, ◌/◌, ◌%◌, ◌<◌, ◌≤◌, length, replicate};
ghost use Rattle.std.proofs.lemmas.List.Edits.{sets};
ghost use Rattle.text_digits.specs.Spelling.{spells};

use text_digits::{digit_pair, put_long};

// So many blanks at a place.
pub(crate) fn put_blanks(out: &mut [u8], at: usize, n: usize)
    requires { at + n ≤ length out.old }
    ensures { out.new ≡ sets out.old at (replicate n 32) }
{
    for i in 0..n {
        out[at + i] = 32;
    }
}

// The two digits of a number below 100 at a place.
fn put_two(out: &mut [u8], at: usize, n: u32)
    requires { (n < 100) × (at + 2 ≤ length out.old) }
    ensures { out.new ≡ sets out.old at ((48 + n / 10) ∷ (48 + n % 10) ∷ []) }
{
    let both = digit_pair(n);
    out[at] = (both % 256) as u8;
    out[at + 1] = (both / 256) as u8;
}

// The number whose 32 bits are w, at the end of the 12 columns from a place on. Most numbers have one digit or two.
pub(crate) fn put_number(out: &mut [u8], at: usize, w: u32)
    requires { at + 12 ≤ length out.old }
    ensures { out.new ≡ spells out.old at w }
{
    if w < 10 {
        out[at + 11] = 48 + (w as u8);
        return;
    }
    if w < 100 {
        put_two(out, at + 10, w);
        return;
    }
    put_long(out, at, w);
}

// The same. Most characters have two digits or three. Below 1,000 a hundredth is 41 of 4096 parts.
pub(crate) fn put_character(out: &mut [u8], at: usize, w: u32)
    requires { at + 12 ≤ length out.old }
    ensures { out.new ≡ spells out.old at w }
{
    if w < 100 {
        put_number(out, at, w);
        return;
    }
    if w < 1000 {
        let hundreds = w * 41 / 4096;
        out[at + 9] = (48 + hundreds) as u8;
        put_two(out, at + 10, w - 100 * hundreds);
        return;
    }
    put_long(out, at, w);
}
