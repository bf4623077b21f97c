// The decimals of a fraction in 2 ^ -20: no more than it takes for the nearest to be read back.
ghost use Rattle.std.specs.Prelude.{◌≡◌, ◌^◌, ◌≤◌, ◌<◌};
ghost use Rattle.property_lists.specs.Putting.{PutsCounted};
ghost use Rattle.property_lists.specs.RealTexts.{nearest_in, reads_as, places_of, fixed_digits, fraction_digits};

use pl_put::bytes::put_byte;

// How many decimals there are, and ten to that power.
#[derive(Clone, Copy)]
struct Places {
    count: u32,
    power: u64,
}

// The nearest number of units of 1 / p to f / 2 ^ 20.
fn nearest_in(p: u64, f: u64) -> u64
    requires { (p ≤ 10000000) × (f < 1048576) }
    ensures { result ≡ nearest_in p f }
{
    (2 * f * p + 1048576) / 2097152
}

// d / p is read as f / 2 ^ 20. For f of 0 the lower end is 0 too.
fn reads_as(p: u64, f: u64, d: u64) -> bool
    requires { (p ≤ 10000000) × ((f < 1048576) × (d ≤ 10000000)) }
    ensures { result ≡ reads_as p f d }
{
    if f == 0 {
        return 2097152 * d < p;
    }
    if (2 * f - 1) * p <= 2097152 * d {
        2097152 * d < (2 * f + 1) * p
    } else {
        false
    }
}

// The first number of decimals whose nearest is read back, seven at the latest.
fn places_of(f: u64) -> Places
    requires { f < 1048576 }
    ensures { (result.count ≡ places_of f) × (result.power ≡ 10 ^ places_of f) }
{
    let mut power: u64 = 10;
    for count in 1..7 {
        if reads_as(power, f, nearest_in(power, f)) {
            return Places {
                count: count,
                power: power,
            };
        }
        power = 10 * power;
    }
    Places {
        count: 7,
        power: power,
    }
}

// The digits of d, `count` of them; power is ten to the count. Answers the place after them.
fn put_digits(out: &mut [u8], at: usize, count: u32, power: u64, d: u64) -> usize
    requires { (power ≡ 10 ^ count) × (d < power) }
    ensures { PutsCounted out.old at (fixed_digits count d) result out.new }
{
    let mut next = at.min(out.len() + 1);
    let mut unit = power;
    let mut rest = d;
    for _ in 0..count {
        unit = unit / 10;
        next = put_byte(out, next, 48 + ((rest / unit) as u8));
        rest = rest % unit;
    }
    next
}

// The decimals of a fraction. Answers the place after them.
pub(crate) fn put_fraction(out: &mut [u8], at: usize, part: u32) -> usize
    requires { part < 1048576 }
    ensures { PutsCounted out.old at (fraction_digits part) result out.new }
{
    let f = part as u64;
    let places = places_of(f);
    let power = places.power;
    put_digits(out, at, places.count, power, nearest_in(power, f))
}
