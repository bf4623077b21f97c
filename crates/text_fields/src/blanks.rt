// The blanks that a field starts with. Eight bytes are compared at once: as one number they are
// 2,314,885,530,818,453,536 where each is 32, and the compiler makes one load of them.
ghost use Rattle.std.specs.Prelude.{◌≡◌, true, ◌+◌, ◌<◌, ◌≤◌, length};
ghost use Rattle.text_fields.specs.Steps.{Blank, Blanks, BlanksEnd};

use crate::numbers::wide;

// Two bytes as one number, the first lowest; and four, and eight.
pub(crate) fn two(text: &[u8], at: usize) -> u64
    requires { at + 2 ≤ length text.now }
    ensures { Blanks text.now at 2 65536 8224 result }
{
    wide(text[at]) + wide(text[at + 1]) * 256
}

fn four(text: &[u8], at: usize) -> u64
    requires { at + 4 ≤ length text.now }
    ensures { Blanks text.now at 4 4294967296 538976288 result }
{
    two(text, at) + two(text, at + 2) * 65536
}

pub(crate) fn eight_blanks(text: &[u8], at: usize) -> bool
    requires { at + 8 ≤ length text.now }
    ensures { result ≡ true → Blank text.now at (at + 8) }
{
    four(text, at) + four(text, at + 4) * 4294967296 == 2314885530818453536
}

// Where the blanks from a place on end.
pub(crate) fn blanks_end(text: &[u8], from: usize, end: usize) -> usize
    requires { (from ≤ end) × (end ≤ length text.now) }
    ensures { BlanksEnd text.now from end result }
{
    for i in from..end {
        if text[i] != 32 {
            return i;
        }
    }
    end
}
