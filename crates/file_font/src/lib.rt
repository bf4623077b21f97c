// The font that a file means, read (file_fonts/specs/Meant.antt): how many bytes are the file, its design size, and its
// lists with the entries unpacked.
#![tactic(auto)]

ghost use Rattle.std.specs.Prelude.{◌≡◌, ◌+◌, ◌-◌, ◌≤◌, eqb, length};
ghost use Rattle.words.specs.Words.{number_of};
ghost use Rattle.lang.specs.Every.{every};
ghost use Rattle.files.specs.Lengths.{file_byte};
ghost use Rattle.file_fonts.specs.Meant.{file_length, file_design, ReadsFont};

use file_commands::kern_word;
use file_fonts::FileFont;
use file_lengths::file_half;
use file_reading::deserialize;
use file_unpacking::unpack_within;
use files::Deserialized;
use lang::Written;
use words::slices::{item_at, zero_all};

// Every byte from place `from` on is 0.
fn zeros_from(bytes: &[u8], from: usize) -> bool
    requires { from ≤ length bytes.now }
    ensures { result ≡ every (length bytes.now - from)
        (λ i. eqb (file_byte bytes.now (from + i)) 0) }
{
    for i in 0..bytes.len() - from {
        if item_at(bytes, from + i) != 0 {
            return false;
        }
    }
    true
}

// How many of the bytes are the file: those that the first length asks for, where zeros alone stand behind them, and
// else all.
pub fn file_length(bytes: &[u8]) -> usize
    ensures { result ≡ file_length bytes.now }
{
    let asked = 4 * (file_half(bytes, 0) as usize);
    if bytes.len() < asked {
        return bytes.len();
    }
    if zeros_from(bytes, asked) {
        asked
    } else {
        bytes.len()
    }
}

// The design size of a file, as its 32 bits: the second word of the header, and ten points where there is none or it is
// below one scaled point.
fn design_word(file: &[u8]) -> u32
    ensures { number_of result ≡ file_design file.now }
{
    let design = kern_word(file, 7);
    if file_half(file, 1) < 2 {
        return 10485760;
    }
    if design < 16 {
        return 10485760;
    }
    if design < 2147483648 {
        design
    } else {
        10485760
    }
}

// The design size of a file.
pub fn file_design(file: &[u8]) -> i32
    ensures { result ≡ file_design file.now }
{
    words::number_of(design_word(file))
}

// Room for the packed entries of any file.
fn packed_list() -> [i32; 512]
    ensures { 512 ≡ length result }
{
    [0; 512]
}

// The font that a file means, written to four lists: instructions of four numbers each, kerns, entries of two numbers
// each, unpacked and by ascending character, and the characters whose entry leads nowhere. On a refusal, 17 or 15,
// every list is zero.
pub fn read_font(
    file: &[u8],
    instructions: &mut [i32],
    kerns: &mut [i32],
    entries: &mut [i32],
    lost: &mut [i32],
) -> FileFont
    ensures { ReadsFont file.now instructions.old kerns.old
        entries.old lost.old result instructions.new kerns.new
        entries.new lost.new }
{
    zero_all(entries);
    zero_all(lost);
    let mut packed = packed_list();
    match deserialize(file, instructions, kerns, &mut packed) {
        Deserialized::Refused(number) => FileFont::Refused(number),
        Deserialized::Font(n, k, e, boundary, left) => {
            match unpack_within(&instructions[..4 * n], &packed[..2 * e], entries, lost) {
                Written::Count(m) => {
                    FileFont::Font(n, k, m, e - m, boundary, left, file_design(file))
                }
                Written::Refused(number) => {
                    zero_all(instructions);
                    zero_all(kerns);
                    FileFont::Refused(number)
                }
            }
        }
    }
}
