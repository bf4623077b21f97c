// A slice of i32: an element read and stored as its 32 bits.
ghost use Rattle.std.specs.Prelude.{◌≡◌, get_or, set, pos};
ghost use Rattle.words.specs.Words.{number_of, Word};

use super::{number_of, word_of};

// The bits of element i; 0 past the end.
pub fn word_at(s: &[i32], i: usize) -> u32
    ensures { Word (get_or s.now i (pos 0)) result }
{
    if i < s.len() {
        let x = s[i];
        word_of(x)
    } else {
        0
    }
}

// Element i becomes the number whose bits are w; past the end nothing is done.
pub fn put_word(s: &mut [i32], i: usize, w: u32)
    ensures { s.new ≡ set s.old i (number_of w) }
{
    let x = number_of(w);
    if i < s.len() {
        s[i] = x;
    }
}
