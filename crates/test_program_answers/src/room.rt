// Room for what is answered: lists as long as a request can make them.
ghost use Rattle.std.specs.Prelude.{◌≡◌, length};

// Two numbers for each instruction.
pub(crate) fn values() -> [i32; 8192]
    ensures { 8192 ≡ length result }
{
    [0; 8192]
}

// An index for each instruction.
pub(crate) fn indices() -> [u32; 4096]
    ensures { 4096 ≡ length result }
{
    [0; 4096]
}

// A byte for each instruction.
pub(crate) fn places() -> [u8; 4096]
    ensures { 4096 ≡ length result }
{
    [0; 4096]
}
