// A repair committed (R403 to R406): the warnings that were asked for are handed over, and the font is repaired if they
// are those of the font as it is lent now. The passes, and the refusals before 15, are crate `repair_passes`'s; 15 and
// 25 are crate `repair_commit_refusals`'s. The repaired program stands in a local array until it is known that nothing
// is refused.
#![tactic(auto)]

ghost use Rattle.std.specs.Prelude.{◌≡◌};
ghost use Rattle.repairs.specs.Repairs.{damaged_of};
ghost use Rattle.repairs.specs.Committing.{Commits};
ghost use Rattle.repair_commit.specs.Finishing.{committed_as};

use repair_commit_refusals::commit_refusal;
use repair_passes::mend;
use repair_places::{placed, places, programs, write_repaired};
use repairs::{Committed, Validated};
use words::slices::zero_all;

// The number, or else the repaired left entry.
fn finished(mended: Validated, number: u32) -> Committed
    ensures { result ≡ committed_as mended number }
{
    match mended {
        Validated::Refused(passes) => Committed::Refused(passes),
        Validated::Fixed(left, _) => {
            if number != 0 {
                Committed::Refused(number)
            } else {
                Committed::Fixed(left)
            }
        }
    }
}

// Repairs a font, if the warnings handed over are those that asking would tell of it now. Answers the repaired left
// entry. `found`, which has a place for each number handed over, is left zero, as work is; and so is every list on a
// refusal: 1 to 4, then 12 (of the repaired program), then 15, then 25.
pub fn commit_repair(
    warnings: &[i32],
    instructions: &[i32],
    kerns: &[i32],
    entries: &[i32],
    boundary: i32,
    left_entry: i32,
    replacement: i32,
    existing: &[u64; 4],
    passthrough: &[u8],
    fixed: &mut [i32],
    through: &mut [u8],
    found: &mut [i32],
    work: &mut [u32],
) -> Committed
    ensures { Commits
        (damaged_of instructions.now kerns.now entries.now boundary
        left_entry replacement existing.now passthrough.now) warnings.now
        fixed.old through.old found.old work.old result fixed.new
        through.new found.new work.new }
{
    let n = placed(instructions.len() / 4);
    let mut program = programs();
    let mut passed = places();
    let mended = mend(
        instructions,
        kerns,
        entries,
        boundary,
        left_entry,
        replacement,
        existing,
        passthrough,
        &mut program[..4 * n],
        &mut passed[..n],
        found,
        work,
    );
    let number = commit_refusal(
        mended,
        4 * n,
        n,
        warnings,
        fixed.len(),
        through.len(),
        found,
    );
    write_repaired(number, &program[..4 * n], &passed[..n], fixed, through);
    zero_all(found);
    finished(mended, number)
}
