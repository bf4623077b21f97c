// A repair committed, for a host in C, which can lend slices of numbers and pass integers and nothing else: it answers
// a number, 0 or that of a refusal (R214). A refusal, 15 for a list that is too short among them (R216), leaves zeros
// in every list that is written (R252).
#![tactic(auto)]

ghost use Rattle.std.specs.Prelude.{[], ◌∷◌};
ghost use Rattle.repairs.specs.Repairs.{damaged_of};
ghost use Rattle.repairs.specs.Committing.{committed_reply};
ghost use Rattle.c_repair_commit.specs.Committing.{TellsLeft, HostCommits};

use c_values::lists::keep_list;
use program_checks::lower_of;
use program_limits::room_refusal;
use repair_commit::commit_repair;
use repairs::Committed;
use words::slices::zero_all;

// The repaired left entry, or a number: 15 where the list has no place for it comes before 25.
fn tell_left(committed: Committed, left: &mut [i32]) -> u32
    ensures { TellsLeft (committed_reply committed) left.old result left.new }
{
    zero_all(left);
    let room = room_refusal(1, left.len());
    match committed {
        Committed::Refused(n) => lower_of(n, room),
        Committed::Fixed(entry) => {
            if room != 0 {
                return room;
            }
            left[0] = entry;
            0
        }
    }
}

// Repairs a font, if the warnings handed over are those that asking would tell of it now. The existing characters are
// 256 bits: those from 0, 64, 128 and 192 on. Tells the repaired left entry in `left`. `found` and work are left zero.
#[unsafe(no_mangle)]
pub extern "C" fn ligkern_commit_repair(
    warnings: &[i32],
    instructions: &[i32],
    kerns: &[i32],
    entries: &[i32],
    boundary: i32,
    left_entry: i32,
    replacement: i32,
    from_0: u64,
    from_64: u64,
    from_128: u64,
    from_192: u64,
    passthrough: &[u8],
    fixed: &mut [i32],
    through: &mut [u8],
    found: &mut [i32],
    work: &mut [u32],
    left: &mut [i32],
) -> u32
    ensures { HostCommits
        (damaged_of instructions.now kerns.now entries.now boundary
        left_entry replacement (from_0 ∷ from_64 ∷ from_128 ∷ from_192 ∷ [])
        passthrough.now) warnings.now fixed.old through.old
        found.old work.old left.old result fixed.new through.new
        found.new work.new left.new }
{
    let existing = [from_0, from_64, from_128, from_192];
    let committed = commit_repair(
        warnings,
        instructions,
        kerns,
        entries,
        boundary,
        left_entry,
        replacement,
        &existing,
        passthrough,
        fixed,
        through,
        found,
        work,
    );
    let number = tell_left(committed, left);
    keep_list(number, fixed);
    keep_list(number, through);
    number
}
