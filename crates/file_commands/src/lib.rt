// Words of a font file, after files/specs/Commands.antt: a word's bytes; an instruction's numbers, from them; a kern; a
// character's tag; the boundary character and the left entry (TeX 541 to 545). Numbers are given as their 32 bits.
#![tactic(auto)]

ghost use Rattle.std.specs.Prelude.{◌≡◌, cond, ◌+◌, ◌*◌, ltb, pos, negsuc};
ghost use Rattle.words.specs.Words.{number_of};
ghost use Rattle.lang.specs.Every.{both};
ghost use Rattle.files.specs.Commands.{word_byte, command_next, command_kind, command_operand, is_first255};
ghost use Rattle.files.specs.Commands.{kern_number};
ghost use Rattle.files.specs.Commands.{is_lig_tagged};

use words::slices::item_at;

// Byte j of word w; 0 past the end.
pub fn word_byte(file: &[u8], w: usize, j: u8) -> u8
    ensures { result ≡ word_byte file.now w j }
{
    if file.len() / 4 < w {
        return 0;
    }
    item_at(file, 4 * w + (j as usize))
}

// The next of an instruction, from its first byte.
pub fn next_word(a: u8) -> u32
    ensures { number_of result ≡ command_next a }
{
    if a < 128 { a as u32 } else { 4294967295 }
}

// Its kind, from its first and third byte: a redirect, a kern or a ligature.
pub fn kind_word(a: u8, c: u8) -> u32
    ensures { number_of result ≡ pos (command_kind a c) }
{
    if 128 < a {
        return 3;
    }
    if c < 128 { 2 } else { 1 }
}

// Its operand, from its first byte and its last two.
pub fn operand_word(a: u8, c: u8, d: u8) -> u32
    ensures { number_of result ≡ pos (command_operand a c d) }
{
    let word = 256 * (c as u32) + (d as u32);
    if c < 128 {
        return word;
    }
    if a <= 128 { word - 32768 } else { word }
}

// The kern in word w, as its 32 bits.
pub fn kern_word(file: &[u8], w: usize) -> u32
    ensures { number_of result ≡ kern_number file.now w }
{
    let a = word_byte(file, w, 0) as u32;
    let b = word_byte(file, w, 1) as u32;
    let c = word_byte(file, w, 2) as u32;
    16777216 * a + 65536 * b + 256 * c + (word_byte(file, w, 3) as u32)
}

// The character whose word is w has an entry.
pub fn is_lig_tagged(file: &[u8], w: usize) -> bool
    ensures { result ≡ is_lig_tagged file.now w }
{
    if word_byte(file, w, 0) == 0 {
        return false;
    }
    word_byte(file, w, 2) % 4 == 1
}

// The boundary character that word w names, as its 32 bits; -1 where it names none, or of no words (n is 0).
pub fn boundary_of(file: &[u8], w: usize, n: usize) -> u32
    ensures { number_of result ≡ cond (both (ltb 0 n) (is_first255 file.now w))
        (pos (word_byte file.now w 1)) (negsuc 0) }
{
    if n == 0 {
        return 4294967295;
    }
    if word_byte(file, w, 0) == 255 {
        word_byte(file, w, 1) as u32
    } else {
        4294967295
    }
}

// The left entry that word w names, as its 32 bits; -1 where it names none, or of no words (n is 0).
pub fn left_of(file: &[u8], w: usize, n: usize) -> u32
    ensures { number_of result ≡ cond (both (ltb 0 n) (is_first255 file.now w))
        (pos (256 * word_byte file.now w 2 + word_byte file.now w 3)) (negsuc 0) }
{
    if n == 0 {
        return 4294967295;
    }
    if word_byte(file, w, 0) == 255 {
        256 * (word_byte(file, w, 2) as u32) + (word_byte(file, w, 3) as u32)
    } else {
        4294967295
    }
}
