// The lists that are lent. What a call writes stands in them as sevens before, so that a place it leaves alone shows.
ghost use Rattle.std.specs.Prelude.{◌≡◌, ◌≤◌, length};

// A file of 32,767 words, and three words more.
pub fn file_room() -> [u8; 131080]
    ensures { 131080 ≡ length result }
{
    [7; 131080]
}

// 32,770 instructions, or the bytes of a file.
pub fn number_room() -> [i32; 131080]
    ensures { 131080 ≡ length result }
{
    [7; 131080]
}

// 32,768 kerns, or the entries of all characters.
pub fn value_room() -> [i32; 32768]
    ensures { 32768 ≡ length result }
{
    [7; 32768]
}

// As many places as are asked for, or as there are.
pub fn within(asked: u32, most: usize) -> usize
    ensures { result ≤ most }
{
    let n = asked as usize;
    if most < n {
        return most;
    }
    n
}
