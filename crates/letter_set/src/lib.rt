// A set of characters as 256 bits, four numbers of 64 (R431), as repair's existing characters. The ones are counted for
// how many letters there are, and trailing zeros give the next letter: no character is asked by itself. Each function
// is total.
#![tactic(auto)]

ghost use Rattle.std.specs.Prelude.{◌≡◌, suc};
ghost use Rattle.letter_set.specs.LetterSets.{letter_in, alphabet_size, word_count, letter_from, letter_found};

use words::slices::item_at;

// Character c is in the set; above 255 none is.
pub fn is_member(letters: &[u64; 4], c: u32) -> bool
    ensures { result ≡ letter_in letters.now c }
{
    if 255 < c {
        return false;
    }
    let number = item_at(letters, (c / 64) as usize);
    (number >> ((c % 64) as u64)) % 2 == 1
}

// How many letters the set has: the ones of its four numbers.
pub fn alphabet_size(letters: &[u64; 4]) -> u32
    ensures { result ≡ alphabet_size letters.now }
{
    let low = u64::count_ones(item_at(letters, 0)) + u64::count_ones(item_at(letters, 1));
    let high = u64::count_ones(item_at(letters, 2)) + u64::count_ones(item_at(letters, 3));
    low + high
}

// How many words of at most four letters there are over the set: at most 4,311,810,305.
pub fn word_count(letters: &[u64; 4]) -> u64
    ensures { result ≡ word_count (alphabet_size letters.now) }
{
    let n = alphabet_size(letters) as u64;
    let two = n * n;
    let three = two * n;
    1 + n + two + three + three * n
}

// The least letter not below c. In c's own number the bits below c are shifted out; the numbers after it are taken
// whole.
pub fn letter_from(letters: &[u64; 4], c: u32) -> Option<u32>
    ensures { result ≡ letter_found (letter_from letters.now c) }
{
    let mut at = c;
    // A `for` over the four numbers is no plainer: only the first of them has bits that are shifted out.
    while at < 256 {
        let own = item_at(letters, (at / 64) as usize) >> ((at % 64) as u64);
        if own != 0 {
            return Some(at + u64::trailing_zeros(own));
        }
        at = 64 * (at / 64) + 64;
    }
    None
}

// The least letter above c.
pub fn letter_after(letters: &[u64; 4], c: u32) -> Option<u32>
    ensures { result ≡ letter_found (letter_from letters.now (suc c)) }
{
    if 255 < c {
        return None;
    }
    letter_from(letters, c + 1)
}
