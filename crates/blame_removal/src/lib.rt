// One removal answered (R485): a font whose instructions were edited is compiled, with no room for a loop, and the
// items of a word in it are compared with those over the table of the font as it was given.
#![tactic(auto)]

ghost use Rattle.std.specs.Prelude.{◌≡◌};
ghost use Rattle.removals.specs.Removed.{font_at, size_number};
ghost use Rattle.blame_removal.specs.Edited.{TablesFit, compiled_answer, AnswersEdited};

use blame_answer::removal_answer;
use blame_compile::compile_loopless;
use captions::RunOptions;
use fonts::Compiled;
use removals::{Blamed, FontNumbers};
use same_items::same_run;
use words::slices::zero_all;

// Removal i, by what compile answered of the edited font and left in the second table.
fn answer_compiled(
    i: usize,
    compiled: Compiled,
    boundary: i32,
    word: &[u32],
    options: RunOptions,
    pairs: &[i32],
    ops: &[i32],
    pairs_without: &[i32],
    ops_without: &[i32],
) -> Blamed
    requires { TablesFit compiled pairs_without.now ops_without.now }
    ensures { result ≡ compiled_answer i compiled boundary word.now options pairs.now
        ops.now pairs_without.now ops_without.now }
{
    match compiled {
        Compiled::Refused(n) => removal_answer(i, n, true),
        Compiled::Tables(p, o, _) => {
            let same = same_run(
                pairs,
                ops,
                &pairs_without[..6 * p],
                &ops_without[..2 * o],
                boundary,
                word,
                options,
            );
            removal_answer(i, 0, same)
        }
    }
}

// Removal i, whose edited instructions are lent, beside the table of the font as given. The second table and work are
// left zero.
pub fn answer_edited(
    i: usize,
    edited: &[i32],
    kerns: &[i32],
    entries: &[i32],
    numbers: FontNumbers,
    word: &[u32],
    options: RunOptions,
    pairs: &[i32],
    ops: &[i32],
    pairs_without: &mut [i32],
    ops_without: &mut [i32],
    work: &mut [u32],
) -> Blamed
    ensures { AnswersEdited i
        (font_at edited.now kerns.now entries.now numbers) (size_number numbers)
        word.now options pairs.now ops.now pairs_without.old
        ops_without.old work.old result pairs_without.new
        ops_without.new work.new }
{
    let compiled = compile_loopless(
        edited,
        kerns,
        entries,
        numbers,
        pairs_without,
        ops_without,
        work,
    );
    let answer = answer_compiled(
        i,
        compiled,
        numbers.boundary,
        word,
        options,
        pairs,
        ops,
        pairs_without,
        ops_without,
    );
    zero_all(pairs_without);
    zero_all(ops_without);
    answer
}
