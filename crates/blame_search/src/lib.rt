// The removals one after the other (R483).
#![tactic(auto)]

ghost use Rattle.std.specs.Prelude.{◌≡◌, ◌/◌, ◌<◌, length};
ghost use Rattle.std.proofs.lemmas.List.Edits.{sets};
ghost use Rattle.removals.specs.Removed.{without_instruction, font_at, size_number};
ghost use Rattle.blame_search.specs.Searching.{is_nothing, Searches};

use blame_removal::answer_edited;
use captions::RunOptions;
use removals::{Blamed, FontNumbers};
use repair_places::copy_numbers;
use words::i32s::put_word;

// The instructions without instruction i, which gets kind 3 and operand 0.
fn write_without(instructions: &[i32], i: usize, edited: &mut [i32])
    requires { i < length instructions.now / 4 }
    ensures { edited.new ≡ without_instruction
        (sets edited.old 0 instructions.now) i }
{
    copy_numbers(instructions, edited);
    put_word(edited, 4 * i + 2, 3);
    put_word(edited, 4 * i + 3, 0);
}

// A removal that alters nothing.
fn is_nothing(answer: Blamed) -> bool
    ensures { result ≡ is_nothing answer }
{
    match answer {
        Blamed::Nothing => true,
        Blamed::At(_) => false,
        Blamed::Refused(_) => false,
    }
}

// The first answer of all removals, beside the table of the font as given.
pub fn search(
    instructions: &[i32],
    kerns: &[i32],
    entries: &[i32],
    numbers: FontNumbers,
    word: &[u32],
    options: RunOptions,
    pairs: &[i32],
    ops: &[i32],
    pairs_without: &mut [i32],
    ops_without: &mut [i32],
    edited: &mut [i32],
    work: &mut [u32],
) -> Blamed
    ensures { Searches
        (font_at instructions.now kerns.now entries.now numbers) (size_number numbers)
        word.now options pairs.now ops.now pairs_without.old
        ops_without.old edited.old work.old result }
{
    for i in 0..instructions.len() / 4 {
        write_without(instructions, i, edited);
        let answer = answer_edited(
            i,
            edited,
            kerns,
            entries,
            numbers,
            word,
            options,
            pairs,
            ops,
            pairs_without,
            ops_without,
            work,
        );
        if !is_nothing(answer) {
            return answer;
        }
    }
    Blamed::Nothing
}
