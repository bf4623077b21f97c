// The entries that the words of the characters hold (TeX 543, 544), counted, and written to the front of a list.
ghost use Rattle.std.specs.Prelude.{◌≡◌, ℕ, ◌+◌, ◌*◌, ◌/◌, ◌≤◌, ◌<◌, length};
ghost use Rattle.std.proofs.lemmas.List.Edits.{sets};
ghost use Rattle.words.specs.Lists.{Appending};
ghost use Rattle.files.specs.Commands.{char_entry};
ghost use Rattle.files.specs.Reading.{entries_from};

use file_commands::{is_lig_tagged, word_byte};

// How many of the n characters from word w on have an entry.
pub(crate) fn count_entries(file: &[u8], w: usize, n: usize) -> usize
    requires { w + n ≤ 1099511627776 }
    ensures { (result ≤ n) × ((c : ℕ) → length (entries_from file.now c w n) ≡ 2 * result) }
{
    let mut count = 0;
    for i in 0..n {
        if is_lig_tagged(file, w + i) {
            count += 1;
        }
    }
    count
}

// The entry of character c, whose word is w, is stored at place `at`. Answers the place after it.
fn put_entry(file: &[u8], c: u32, w: usize, out: &mut [i32], at: usize) -> usize
    requires { (c < 2147483648) × (at + length (char_entry file.now c w) ≤ length out.old) }
    ensures { (out.new ≡ sets out.old at (char_entry file.now c w))
        × (result ≡ at + length (char_entry file.now c w)) }
{
    if !is_lig_tagged(file, w) {
        return at;
    }
    words::i32s::put_word(out, at, c);
    words::i32s::put_word(out, at + 1, word_byte(file, w, 3) as u32);
    at + 2
}

// The entries of the n characters from c on, whose words begin at w, written to the front of the output. Answers how
// many there are.
pub(crate) fn write_entries(file: &[u8], c: u32, w: usize, n: usize, out: &mut [i32]) -> usize
    requires { (c + n ≤ 2147483648) × ((w + n ≤ 1099511627776)
        × (length (entries_from file.now c w n) ≤ length out.old)) }
    ensures { (Appending (entries_from file.now c w n) out.old out.new)
        × (result ≡ length (entries_from file.now c w n) / 2) }
{
    let mut at = 0;
    for i in 0..n {
        at = put_entry(file, c + (i as u32), w + i, out, at);
    }
    at / 2
}
