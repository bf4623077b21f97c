// A slice of numbers of any width: an element read and stored, and zeroing.
ghost use Rattle.std.specs.Prelude.{◌≡◌, length, get_or, set, replicate, pos};

// A type of numbers, by its zero.
pub trait Number: Copy + Drop {
    ghost ZERO: { Self };

    const ZERO: Self;
}

impl Number for i32 {
    ghost ZERO = { pos 0 };

    const ZERO: i32 = 0;
}

impl Number for u8 {
    ghost ZERO = { 0 };

    const ZERO: u8 = 0;
}

impl Number for u32 {
    ghost ZERO = { 0 };

    const ZERO: u32 = 0;
}

impl Number for u64 {
    ghost ZERO = { 0 };

    const ZERO: u64 = 0;
}

// Element i; 0 past the end.
pub fn item_at<T: Number>(s: &[T], i: usize) -> T
    ensures { result ≡ get_or s.now i T.ZERO }
{
    if i < s.len() { s[i] } else { T::ZERO }
}

// Element i becomes x; past the end nothing is done.
pub fn put_item<T: Number>(s: &mut [T], i: usize, x: T)
    ensures { s.new ≡ set s.old i x }
{
    if i < s.len() {
        s[i] = x;
    }
}

// Every element becomes 0.
pub fn zero_all<T: Number>(s: &mut [T])
    ensures { s.new ≡ replicate (length s.old) T.ZERO }
{
    for i in 0..s.len() {
        s[i] = T::ZERO;
    }
}
