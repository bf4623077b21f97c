// The characters' words of a font file, put into a part that is lent (files/specs/Sections.antt, TeX 543 and 544). What
// passes the end of the part is left off.
#![tactic(auto)]

ghost use Rattle.std.specs.Prelude.{◌≡◌, ◌+◌, ◌<◌, negsuc, get_or};
ghost use Rattle.words.specs.Words.{number_of};
ghost use Rattle.files.specs.Lengths.{char_count, char_start};
ghost use Rattle.files.specs.Sections.{byte_of, words_in_front, char_byte};
ghost use Rattle.file_words.specs.Fours.{four_bytes};

use file_lengths::{char_count, char_start};
use file_words::put_four;
use files::FileLengths;
use words::i32s::word_at;
use words::slices::item_at;

// The entry at a place of the table, as its 32 bits; past the last place -1.
fn entry_word(table: &[i32], place: usize) -> u32
    ensures { number_of result ≡ get_or table.now place (negsuc 0) }
{
    if place < table.len() {
        word_at(table, place)
    } else {
        4294967295
    }
}

// The third byte of a character's word, which was word w of the old file. The entry is given by its 32 bits.
fn tag_byte(old: &[u8], entry: u32, w: usize) -> u8
    requires { w < 17179869184 }
    ensures { result ≡ char_byte old.now (number_of entry) w 2 }
{
    let tag = item_at(old, 4 * w + 2);
    if entry < 2147483648 {
        return 4 * (tag / 4) + 1;
    }
    if tag % 4 == 1 { 4 * (tag / 4) } else { tag }
}

// Its last byte.
fn remainder_byte(old: &[u8], entry: u32, w: usize) -> u8
    requires { w < 17179869184 }
    ensures { result ≡ char_byte old.now (number_of entry) w 3 }
{
    if entry < 2147483648 {
        return (entry % 256) as u8;
    }
    if item_at(old, 4 * w + 2) % 4 == 1 {
        0
    } else {
        item_at(old, 4 * w + 3)
    }
}

// The whole of it.
fn char_word(old: &[u8], entry: u32, w: usize) -> u32
    requires { w < 17179869184 }
    ensures { four_bytes (byte_of result) ≡ four_bytes (char_byte old.now (number_of entry) w) }
{
    let first = item_at(old, 4 * w) as u32;
    let second = item_at(old, 4 * w + 1) as u32;
    let third = tag_byte(old, entry, w) as u32;
    16777216 * first + 65536 * second + 256 * third + (remainder_byte(old, entry, w) as u32)
}

// The characters' words, by the table of the packed entries.
pub fn write_chars(old: &[u8], lengths: FileLengths, table: &[i32; 257], out: &mut [u8])
    ensures { out.new ≡ words_in_front (char_count lengths)
        (λ i. char_byte old.now (get_or table.now (lengths.bc + i) (negsuc 0))
        (char_start lengths + i)) out.old }
{
    let n = char_count(lengths).min(out.len() / 4);
    let first = lengths.bc as usize;
    let start = char_start(lengths);
    for i in 0..n {
        let entry = entry_word(table, first + i);
        put_four(out, 4 * i, char_word(old, entry, start + i));
    }
}
