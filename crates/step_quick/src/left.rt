// A quick state: no op is to be given, and a character stands left of a letter. Its character, its letter, and its
// left.
ghost use Rattle.std.specs.Prelude.{◌≡◌};
ghost use Rattle.step_quick.specs.Quick.{plain_code, has_letter, is_quick, quick_left};

use crate::calm::is_plain;
use captions::{NextLeft, RunOptions, State};

// The code of a character; 256 of any other next left.
pub fn plain_code(x: NextLeft) -> u32
    ensures { result ≡ plain_code x }
{
    match x {
        NextLeft::Boundary => 256,
        NextLeft::Char(c) => c,
        NextLeft::Lig(_) => 256,
        NextLeft::FinalLig(_) => 256,
        NextLeft::None => 256,
    }
}

// There is a letter to be read, and one that was read and not given.
pub fn has_letter(word: &[u32], s: State) -> bool
    ensures { result ≡ has_letter word.now s }
{
    if word.len() <= s.read {
        return false;
    }
    s.given < s.read
}

// A character with a letter to its right, and no op to be given.
fn is_quick(ops: &[i32], boundary: i32, word: &[u32], options: RunOptions, s: State) -> bool
    ensures { result ≡ is_quick ops.now boundary word.now options s }
{
    if s.ops != 0 {
        return false;
    }
    if !has_letter(word, s) {
        return false;
    }
    let read = s.read;
    if 255 < word[read] {
        return false;
    }
    is_plain(ops, boundary, word, options, s)
}

// One more than the code of the character, where the state is such; else 0.
pub fn quick_left(ops: &[i32], boundary: i32, word: &[u32], options: RunOptions, s: State) -> u32
    ensures { result ≡ quick_left ops.now boundary word.now options s }
{
    if !is_quick(ops, boundary, word, options, s) {
        return 0;
    }
    let next = s.next_left;
    plain_code(next) + 1
}
