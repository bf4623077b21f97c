// The warnings of loops, the last of repair, after the end of `validate_and_fix` of ligkern/lang.rs (lines 804 to 818):
// the loops of the repaired font, which compiling's own search finds. TFtoPL 88 to 95. The true design size is not
// needed for that; ten times `FixWord::ONE` stands in for it.
#![tactic(auto)]

ghost use Rattle.std.specs.Prelude.{◌<◌, ◌≤◌, ℤ, pos};
ghost use Rattle.words.specs.Lists.{tabulate};
ghost use Rattle.fonts.specs.Fonts.{font_of};
ghost use Rattle.compiling.specs.Rows.{at, pair_at};
ghost use Rattle.compiling.specs.LoopSteps.{Listing};
ghost use Rattle.repairs.specs.Warnings.{loop_warnings};
ghost use Rattle.repairs.specs.Pushed.{Pushed};
ghost use Rattle.repair_loops.specs.WarnsLoops.{WarnsLoops};

use compile_loops::find_loops;
use compile_rows::get;
use compiling::WalkedFont;
use lang::Written;
use repair_warnings::push_if;
use tfm::FixWord;
use words::slices::zero_all;

// One warning for each of the r rows that are listed, after n others.
fn warn_rows(work: &[u32], r: usize, warnings: &mut [i32], n: usize) -> usize
    requires { (r ≤ 65792) × (n < 2147483648) × Listing r work.now }
    ensures { Pushed warnings.old n
        (loop_warnings (tabulate r (λ i. pair_at work.now (at work.now i 8))))
        warnings.new result }
{
    let mut count = n;
    for i in 0..r {
        let k = get(work, i, 8) as usize;
        let left = ((get(work, k, 0) as u64) + 4294967295) % 4294967296;
        let right = get(work, k, 1);
        count = push_if(true, warnings, count, 10, left as u32, right, 0);
    }
    count
}

// After n warnings, one for each loop of a font. Answers how many there are then; 1 and 12 as compiling answers them,
// and 15 after 2^31 warnings or more, which no i32 counts: then none is written. Work is left zero.
pub fn warn_loops(
    instructions: &[i32],
    kerns: &[i32],
    entries: &[i32],
    left_entry: i32,
    warnings: &mut [i32],
    n: usize,
    work: &mut [u32],
) -> Written
    ensures { (b : ℤ) →
        WarnsLoops
        (font_of instructions.now kerns.now entries.now b left_entry
        (pos 10485760)) n warnings.old work.old result warnings.new
        work.new }
{
    let room = work.len() / 16;
    let dummy_design_size = FixWord::ONE.0 * 10;
    match find_loops(
        instructions,
        kerns,
        entries,
        left_entry,
        dummy_design_size,
        work,
        room,
    ) {
        WalkedFont::Refused(number) => Written::Refused(number),
        WalkedFont::Rows(_, _, r, _) => {
            if 2147483647 < n {
                zero_all(work);
                return Written::Refused(15);
            }
            let count = warn_rows(work, r, warnings, n);
            zero_all(work);
            Written::Count(count)
        }
    }
}
