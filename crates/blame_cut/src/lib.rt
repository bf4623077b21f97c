// The tables cut (R484): of each kind both are cut to the smaller, and then the font as given is answered.
#![tactic(auto)]

ghost use Rattle.std.specs.Prelude.{◌≡◌, length};
ghost use Rattle.removals.specs.Removed.{font_at, size_number};
ghost use Rattle.removals.specs.Search.{blame_room, blamed_of};

use blame_given::answer_given;
use captions::RunOptions;
use removals::{Blamed, FontNumbers};

// The answer of the plain search, with whatever is left in the six lists.
pub fn answer_cut(
    instructions: &[i32],
    kerns: &[i32],
    entries: &[i32],
    numbers: FontNumbers,
    word: &[u32],
    options: RunOptions,
    pairs: &mut [i32],
    ops: &mut [i32],
    pairs_without: &mut [i32],
    ops_without: &mut [i32],
    edited: &mut [i32],
    work: &mut [u32],
) -> Blamed
    ensures { result ≡ blamed_of
        (font_at instructions.now kerns.now entries.now numbers)
        (blame_room pairs.old ops.old pairs_without.old
        ops_without.old work.old)
        (size_number numbers) word.now options (length edited.old) }
{
    let p = pairs.len().min(pairs_without.len());
    let o = ops.len().min(ops_without.len());
    answer_given(
        instructions,
        kerns,
        entries,
        numbers,
        word,
        options,
        &mut pairs[..p],
        &mut ops[..o],
        &mut pairs_without[..p],
        &mut ops_without[..o],
        edited,
        work,
    )
}
