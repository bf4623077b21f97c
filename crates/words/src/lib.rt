// Numbers as they are lent: i32 as its 32 bits and back, and slices. Nothing here has a `requires`: an index past the
// end reads 0, and a store there does nothing.
//   i32s     an element of i32 read and stored as its 32 bits
//   slices   an element of any type of numbers read and stored, and zeroing
#![tactic(auto)]

ghost use Rattle.std.specs.Prelude.{◌≡◌};
ghost use Rattle.words.specs.Words.{word_of, number_of};

pub mod i32s;
pub mod slices;

// The 32 bits of x, two's complement.
pub fn word_of(x: i32) -> u32
    ensures { result ≡ word_of x }
{
    if x < 0 {
        ((x as i64) + 4294967296) as u32
    } else {
        x as u32
    }
}

// The number whose 32 bits are w.
pub fn number_of(w: u32) -> i32
    ensures { result ≡ number_of w }
{
    if w < 2147483648 {
        w as i32
    } else {
        ((w as i64) - 4294967296) as i32
    }
}
