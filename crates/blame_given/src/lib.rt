// The font as given (R486): its table, its refusals, and then the removals one after the other.
#![tactic(auto)]

ghost use Rattle.std.specs.Prelude.{◌≡◌, length};
ghost use Rattle.fonts.specs.Compiled.{room_of};
ghost use Rattle.removals.specs.Removed.{font_at, size_number};
ghost use Rattle.blame_given.specs.Given.{blamed_in};

use blame_compile::compile_loopless;
use blame_numbers::blame_number;
use blame_search::search;
use captions::RunOptions;
use fonts::Compiled;
use removals::{Blamed, FontNumbers};

// The answer, with one table for the font as given and another for the removals, each with its own room.
pub fn answer_given(
    instructions: &[i32],
    kerns: &[i32],
    entries: &[i32],
    numbers: FontNumbers,
    word: &[u32],
    options: RunOptions,
    pairs: &mut [i32],
    ops: &mut [i32],
    pairs_without: &mut [i32],
    ops_without: &mut [i32],
    edited: &mut [i32],
    work: &mut [u32],
) -> Blamed
    ensures { result ≡ blamed_in
        (font_at instructions.now kerns.now entries.now numbers)
        (room_of (length pairs.old) (length ops.old) 0 (length work.old))
        (room_of (length pairs_without.old) (length ops_without.old) 0
        (length work.old))
        (size_number numbers) word.now options (length edited.old) }
{
    let n = instructions.len();
    let compiled = compile_loopless(instructions, kerns, entries, numbers, pairs, ops, work);
    let number = blame_number(compiled, numbers, word, options, n, edited.len());
    if number != 0 {
        return Blamed::Refused(number);
    }
    let Compiled::Tables(p, o, _) = compiled else {
        return Blamed::Nothing;
    };
    search(
        instructions,
        kerns,
        entries,
        numbers,
        word,
        options,
        &pairs[..6 * p],
        &ops[..2 * o],
        pairs_without,
        ops_without,
        &mut edited[..n],
        work,
    )
}
