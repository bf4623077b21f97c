// What is written into a font file, put into a part that is lent: a length, bytes, kerns, the words of the lig/kern
// section (files/specs/Sections.antt). What passes the end of the part is left off.
#![tactic(auto)]

ghost use Rattle.std.specs.Prelude.{◌≡◌, ◌<◌, length};
ghost use Rattle.std.proofs.lemmas.List.Edits.{sets};
ghost use Rattle.words.specs.Words.{number_of};
ghost use Rattle.lang.specs.Records.{count};
ghost use Rattle.files.specs.Sections.{half_bytes, byte_of, bytes_in_front, words_in_front};
ghost use Rattle.files.specs.Sections.{kern_byte, first_byte, last_half, command_byte};
ghost use Rattle.file_words.specs.Fours.{four_bytes};

use lang::instruction::field_at;
use words::i32s::word_at;
use words::slices::put_item;
use words::word_of;

// A length at a place: two bytes, the higher first.
pub fn put_half(out: &mut [u8], at: usize, n: u32)
    ensures { out.new ≡ sets out.old at (half_bytes n) }
{
    if at < out.len() {
        put_item(out, at, (n / 256 % 256) as u8);
        put_item(out, at + 1, (n % 256) as u8);
    }
}

// Bytes as they are.
pub fn copy_bytes(bytes: &[u8], out: &mut [u8])
    ensures { out.new ≡ bytes_in_front bytes.now out.old }
{
    let n = bytes.len().min(out.len());
    out[..n].copy_from_slice(&bytes[..n]);
}

// The four bytes of a word at a place, the highest first.
pub fn put_four(out: &mut [u8], at: usize, w: u32)
    ensures { out.new ≡ sets out.old at (four_bytes (byte_of w)) }
{
    if at < out.len() {
        put_half(out, at, w / 65536);
        if at + 1 < out.len() {
            put_half(out, at + 2, w % 65536);
        }
    }
}

// Kerns, a word each.
pub fn write_words(kerns: &[i32], out: &mut [u8])
    ensures { out.new ≡ words_in_front (length kerns.now) (kern_byte kerns.now)
        out.old }
{
    let n = kerns.len().min(out.len() / 4);
    for i in 0..n {
        put_four(out, 4 * i, word_at(kerns, i));
    }
}

// The first byte of instruction i. The boundary character is given by its 32 bits.
fn first_byte(instructions: &[i32], boundary: u32, i: usize) -> u8
    requires { i < count instructions.now }
    ensures { result ≡ first_byte instructions.now (number_of boundary) i }
{
    if field_at(instructions, i, 2) == 3 {
        if boundary < 2147483648 {
            return 255;
        }
        if i + 1 == instructions.len() / 4 {
            return 255;
        }
        return 254;
    }
    let next = field_at(instructions, i, 0);
    if next < 2147483648 {
        (next % 256) as u8
    } else {
        128
    }
}

// The last two bytes of instruction i as one number.
fn last_half(instructions: &[i32], i: usize) -> u16
    ensures { result ≡ last_half instructions.now i }
{
    let operand = field_at(instructions, i, 3);
    if field_at(instructions, i, 2) == 1 {
        (32768 + operand % 32768) as u16
    } else {
        (operand % 65536) as u16
    }
}

// The word of instruction i.
fn command_word(instructions: &[i32], boundary: u32, i: usize) -> u32
    requires { i < count instructions.now }
    ensures { four_bytes (byte_of result)
        ≡ four_bytes (command_byte instructions.now (number_of boundary) i) }
{
    let first = first_byte(instructions, boundary, i) as u32;
    let right = field_at(instructions, i, 1) % 256;
    16777216 * first + 65536 * right + (last_half(instructions, i) as u32)
}

// The words of a packed program.
pub fn write_commands(instructions: &[i32], boundary: i32, out: &mut [u8])
    ensures { out.new ≡ words_in_front (count instructions.now)
        (command_byte instructions.now boundary) out.old }
{
    let b = word_of(boundary);
    let n = (instructions.len() / 4).min(out.len() / 4);
    for i in 0..n {
        put_four(out, 4 * i, command_word(instructions, b, i));
    }
}
