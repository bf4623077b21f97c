// The digits of numbers that have many, written from the right at the end of a field of 12 columns. Two digits are one
// number of two bytes, which the compiler stores at once.
#![tactic(auto)]

ghost use Rattle.std.specs.Prelude.{◌≡◌, [], ◌∷◌, ◌+◌, ◌/◌, ◌%◌, ◌<◌, ◌≤◌, length};
ghost use Rattle.std.proofs.lemmas.List.Edits.{sets};
ghost use Rattle.columns.specs.Numbers.{digits};
ghost use Rattle.text_digits.specs.Spelling.{digit_pair, Sizes, spells_where};

// The two digits of a number below 100 as one number, the first in its lower byte. Below 100 a tenth is 103 of 1024
// parts, and the compiler multiplies in the place of a division. Any other number gives 0.
pub fn digit_pair(n: u32) -> u32
    ensures { result ≡ digit_pair n }
{
    if 99 < n {
        return 0;
    }
    let tens = n * 103 / 1024;
    256 * n + 12336 - 2559 * tens
}

// The last two digits of a number at a place. Answers the number that the others are.
fn put_low(out: &mut [u8], at: usize, n: u32) -> u32
    requires { at + 2 ≤ length out.old }
    ensures { (result ≡ n / 100)
        × (out.new ≡ sets out.old at ((48 + n / 10 % 10) ∷ (48 + n % 10) ∷ [])) }
{
    let others = n / 100;
    let both = digit_pair(n % 100);
    out[at] = (both % 256) as u8;
    out[at + 1] = (both / 256) as u8;
    others
}

// The digits of a number below 100 before a place. Answers where they begin.
fn put_top(out: &mut [u8], end: usize, n: u32) -> usize
    requires { (n < 100) × (2 ≤ end) × (end ≤ length out.old) }
    ensures { (result + length (digits 10 n) ≡ end)
        × (out.new ≡ sets out.old result (digits 10 n)) }
{
    if n < 10 {
        out[end - 1] = 48 + (n as u8);
        return end - 1;
    }
    put_low(out, end - 2, n);
    end - 2
}

// The digits of n before a place, two at a time. Answers where they begin. There is no loop, since a number has at most
// ten.
fn put_digits(out: &mut [u8], end: usize, n: u32) -> usize
    requires { (10 ≤ end) × (end ≤ length out.old) }
    ensures { (result + length (digits 10 n) ≡ end)
        × (out.new ≡ sets out.old result (digits 10 n)) }
{
    if n < 100 {
        return put_top(out, end, n);
    }
    let a = put_low(out, end - 2, n);
    if a < 100 {
        return put_top(out, end - 2, a);
    }
    let b = put_low(out, end - 4, a);
    if b < 100 {
        return put_top(out, end - 4, b);
    }
    let c = put_low(out, end - 6, b);
    if c < 100 {
        return put_top(out, end - 6, c);
    }
    let d = put_low(out, end - 8, c);
    put_top(out, end - 8, d)
}

// The size of the number whose 32 bits are w.
fn size_of(w: u32) -> u32
    ensures { Sizes w result }
{
    if w < 2147483648 {
        w
    } else {
        4294967295 - w + 1
    }
}

// The number whose 32 bits are w, at the end of the 12 columns from a place on. This is too much code to be repeated at
// each call, which is meant: what calls it takes the digits that most numbers have.
pub fn put_long(out: &mut [u8], at: usize, w: u32)
    ensures { out.new ≡ spells_where out.old at w }
{
    if out.len() < at {
        return;
    }
    if out.len() - at < 12 {
        return;
    }
    let first = put_digits(out, at + 12, size_of(w));
    if w < 2147483648 {
        return;
    }
    out[first - 1] = 45;
}
