// Reading a font file: its instructions, kerns and entries, its boundary character and its left entry (TeX 539 to 545).
// Each list is read in one pass, and the entries are counted in one more before.
#![tactic(auto)]

ghost use Rattle.std.specs.Prelude.{◌≡◌, length};
ghost use Rattle.files.specs.Reading.{deserialize_refusal, Deserializes};
ghost use Rattle.file_reading.specs.Writing.{WritesFont};

mod commands;
mod entries;

use crate::commands::{write_commands, write_kerns};
use crate::entries::{count_entries, write_entries};
use file_commands::{boundary_of, left_of};
use file_lengths::{char_count, char_start, command_start, lengths_of, lengths_refusal};
use files::Deserialized;
use program_limits::room_refusal;

// 17 or 15, or 0, for lists of so many places.
fn deserialize_refusal(file: &[u8], room: usize, kern_room: usize, entry_room: usize) -> u32
    ensures { result ≡ deserialize_refusal file.now room kern_room entry_room }
{
    let lengths = lengths_refusal(file);
    let l = lengths_of(file);
    let program = room_refusal(4 * (l.nl as usize), room);
    if lengths != 0 {
        return lengths;
    }
    if program != 0 {
        return program;
    }
    let kerns = room_refusal(l.nk as usize, kern_room);
    if kerns != 0 {
        return kerns;
    }
    room_refusal(
        2 * count_entries(file, char_start(l), char_count(l)),
        entry_room,
    )
}

// A file that is not refused: its three lists are written, each to the front of one, and the font is answered.
fn write_font(
    file: &[u8],
    instructions: &mut [i32],
    kerns: &mut [i32],
    entries: &mut [i32],
) -> Deserialized
    requires { deserialize_refusal file.now (length instructions.old) (length kerns.old)
        (length entries.old) ≡ 0 }
    ensures { WritesFont file.now instructions.old kerns.old
        entries.old result instructions.new kerns.new entries.new }
{
    let l = lengths_of(file);
    let n = l.nl as usize;
    let kern_count = l.nk as usize;
    let start = command_start(l);
    let count = write_entries(file, l.bc, char_start(l), char_count(l), entries);
    write_commands(file, start, n, instructions);
    write_kerns(file, start + n, kern_count, kerns);
    let boundary = words::number_of(boundary_of(file, start, n));
    let left = words::number_of(left_of(file, start + n - 1, n));
    Deserialized::Font(n, kern_count, count, boundary, left)
}

// The font that a file holds, written to three lists: instructions of four numbers each, kerns, and entries of two
// numbers each, by ascending character and still packed.
pub fn deserialize(
    file: &[u8],
    instructions: &mut [i32],
    kerns: &mut [i32],
    entries: &mut [i32],
) -> Deserialized
    ensures { Deserializes file.now instructions.old kerns.old
        entries.old result instructions.new kerns.new entries.new }
{
    words::slices::zero_all(instructions);
    words::slices::zero_all(kerns);
    words::slices::zero_all(entries);
    let refusal = deserialize_refusal(file, instructions.len(), kerns.len(), entries.len());
    if refusal != 0 {
        return Deserialized::Refused(refusal);
    }
    write_font(file, instructions, kerns, entries)
}
