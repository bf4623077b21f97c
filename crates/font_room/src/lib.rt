// Room for one font of any file: 32,767 words, 49,152 pairs and 98,304 ops. Each list is zeros.
#![tactic(auto)]

ghost use Rattle.std.specs.Prelude.{pos};
ghost use Rattle.font_room.specs.Rooms.{ZeroRoom};

pub mod parts;

// The bytes of a file.
pub fn byte_room() -> [u8; 131068]
    ensures { ZeroRoom 131068 0 result }
{
    [0; 131068]
}

// Four numbers an instruction.
pub fn instruction_room() -> [i32; 131068]
    ensures { ZeroRoom 131068 (pos 0) result }
{
    [0; 131068]
}

// One number a kern.
pub fn kern_room() -> [i32; 32767]
    ensures { ZeroRoom 32767 (pos 0) result }
{
    [0; 32767]
}

// Two numbers an entry.
pub fn entry_room() -> [i32; 512]
    ensures { ZeroRoom 512 (pos 0) result }
{
    [0; 512]
}

// One number a character whose entry leads nowhere.
pub fn lost_room() -> [i32; 256]
    ensures { ZeroRoom 256 (pos 0) result }
{
    [0; 256]
}

// Six numbers a pair.
pub fn pair_room() -> [i32; 294912]
    ensures { ZeroRoom 294912 (pos 0) result }
{
    [0; 294912]
}

// Two numbers an op.
pub fn op_room() -> [i32; 196608]
    ensures { ZeroRoom 196608 (pos 0) result }
{
    [0; 196608]
}

// Two numbers a loop.
pub fn loop_room() -> [i32; 98304]
    ensures { ZeroRoom 98304 (pos 0) result }
{
    [0; 98304]
}

// Sixteen numbers a pair.
pub fn work_room() -> [u32; 786432]
    ensures { ZeroRoom 786432 0 result }
{
    [0; 786432]
}
