// Lists for what a column text says, within its limits, and how many of the last one's numbers are letters. Each list
// is zeros.
#![tactic(auto)]

ghost use Rattle.std.specs.Prelude.{◌≡◌, pos};
ghost use Rattle.font_room.specs.Rooms.{ZeroRoom};
ghost use Rattle.columns.specs.Scanned.{letters_in};

use words::word_of;

// Four numbers an instruction.
pub fn instruction_list() -> [i32; 2048]
    ensures { ZeroRoom 2048 (pos 0) result }
{
    [0; 2048]
}

// One number a K line.
pub fn line_kerns() -> [i32; 512]
    ensures { ZeroRoom 512 (pos 0) result }
{
    [0; 512]
}

// One number a kern, of which each instruction may add one to the K lines.
pub fn kern_list() -> [i32; 1024]
    ensures { ZeroRoom 1024 (pos 0) result }
{
    [0; 1024]
}

// Two numbers an entry.
pub fn entry_list() -> [i32; 5040]
    ensures { ZeroRoom 5040 (pos 0) result }
{
    [0; 5040]
}

// One number a letter.
pub fn letter_list() -> [u32; 64]
    ensures { ZeroRoom 64 0 result }
{
    [0; 64]
}

// How many letters there are: none where there is no word.
pub fn letters_in(letters: i32) -> usize
    ensures { result ≡ letters_in letters }
{
    let w = word_of(letters);
    if w < 2147483648 { w as usize } else { 0 }
}
