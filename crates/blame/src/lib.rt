// Which instruction did that? (R481 to R488). Each instruction of a font is removed alone, from the lowest on, until a
// removal alters the items of a word, or brings a loop, or a number. The tables are cut in crate `blame_cut`; the font
// as given, and then the removals, is crate `blame_given`; the refusals are crate `blame_numbers`, the removals
// `blame_search` and, one alone, `blame_removal`.
#![tactic(auto)]

ghost use Rattle.removals.specs.Removed.{font_at, size_number};
ghost use Rattle.removals.specs.Search.{Blames};

use blame_cut::answer_cut;
use blame_zero::zero_work;
use captions::RunOptions;
use removals::{Blamed, FontNumbers};

// The lowest instruction whose removal alone alters the items of a word. The six lists are work, and left zero: a table
// for the font as given, one for a removal, edited instructions, and compile's work. Compile's numbers, begin's, 15
// where the edited instructions do not fit, and 28 where the font as given has a loop; 13 or 14 of a removal.
pub fn blamed_instruction(
    instructions: &[i32],
    kerns: &[i32],
    entries: &[i32],
    numbers: FontNumbers,
    word: &[u32],
    options: RunOptions,
    pairs: &mut [i32],
    ops: &mut [i32],
    pairs_without: &mut [i32],
    ops_without: &mut [i32],
    edited: &mut [i32],
    work: &mut [u32],
) -> Blamed
    ensures { Blames
        (font_at instructions.now kerns.now entries.now numbers) (size_number numbers)
        word.now options pairs.old ops.old pairs_without.old
        ops_without.old edited.old work.old result pairs.new
        ops.new pairs_without.new ops_without.new edited.new
        work.new }
{
    let answer = answer_cut(
        instructions,
        kerns,
        entries,
        numbers,
        word,
        options,
        pairs,
        ops,
        pairs_without,
        ops_without,
        edited,
        work,
    );
    zero_work(pairs, ops, pairs_without, ops_without, edited, work);
    answer
}
