// Room for a run and for a list of pairs.
ghost use Rattle.std.specs.Prelude.{◌≡◌, length};

// Seven numbers a call.
pub(crate) fn calls() -> [i32; 7168]
    ensures { 7168 ≡ length result }
{
    [0; 7168]
}

// The letters of a word.
pub(crate) fn words() -> [u32; 1024]
    ensures { 1024 ≡ length result }
{
    [0; 1024]
}

// Two numbers a pair.
pub(crate) fn list() -> [i32; 2048]
    ensures { 2048 ≡ length result }
{
    [0; 2048]
}
