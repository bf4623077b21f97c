// Asking before a repair (R401, R402): the warnings of a font, which stays as it is. The passes, and the refusals
// before 15, are crate `repair_passes`'s; here is 15. They need the repaired program, since 12 is of it: it is dropped.
#![tactic(auto)]

ghost use Rattle.std.specs.Prelude.{◌≡◌};
ghost use Rattle.lang.specs.Answers.{written_reply};
ghost use Rattle.repairs.specs.Repairs.{damaged_of};
ghost use Rattle.repairs.specs.Asking.{Asks};
ghost use Rattle.repair_ask.specs.Told.{told};

use c_values::lists::keep_list;
use lang::Written;
use repair_passes::mend;
use repair_places::{placed, places, programs};
use repairs::Validated;
use words::slices::zero_all;

// How many warnings there are; the refusal of the passes, or 15 where there are not four places for each.
fn told(mended: Validated, room: usize) -> Written
    ensures { result ≡ told mended room }
{
    match mended {
        Validated::Refused(number) => Written::Refused(number),
        Validated::Fixed(_, count) => {
            if count <= room / 4 {
                Written::Count(count)
            } else {
                Written::Refused(15)
            }
        }
    }
}

// The number of an answer, 0 where it is none.
fn number_of(written: Written) -> u32
    ensures { result ≡ (written_reply written).number }
{
    match written {
        Written::Refused(number) => number,
        Written::Count(_) => 0,
    }
}

// The warnings that repairing a font would give, four numbers each, and how many they are. The font is not changed.
// Work is left zero, and so are the warnings on a refusal: 1 to 4, then 12 (of the repaired program), then 15.
pub fn ask_repair(
    instructions: &[i32],
    kerns: &[i32],
    entries: &[i32],
    boundary: i32,
    left_entry: i32,
    replacement: i32,
    existing: &[u64; 4],
    passthrough: &[u8],
    warnings: &mut [i32],
    work: &mut [u32],
) -> Written
    ensures { Asks
        (damaged_of instructions.now kerns.now entries.now boundary
        left_entry replacement existing.now passthrough.now) warnings.old
        work.old result warnings.new work.new }
{
    zero_all(warnings);
    let n = placed(instructions.len() / 4);
    let mut program = programs();
    let mut passed = places();
    let mended = mend(
        instructions,
        kerns,
        entries,
        boundary,
        left_entry,
        replacement,
        existing,
        passthrough,
        &mut program[..4 * n],
        &mut passed[..n],
        warnings,
        work,
    );
    let written = told(mended, warnings.len());
    keep_list(number_of(written), warnings);
    written
}
