// The passes of repair one after the other, after `validate_and_fix` of ligkern/lang.rs (lines 691 to 818): the entries
// (TFtoPL 67 and 69), what is reachable (68 to 70), the steps (70 to 77) and the loops (88 to 95). Each pass is a crate
// of its own.
#![tactic(auto)]

ghost use Rattle.std.specs.Prelude.{◌≡◌, cond, ◌*◌, ◌/◌, ◌<◌, ◌≤◌, leb, eqb, negsuc, length};
ghost use Rattle.std.specs.Int.Signed.{non_neg};
ghost use Rattle.words.specs.Words.{word_of};
ghost use Rattle.lang.specs.Every.{both};
ghost use Rattle.lang.specs.Records.{count};
ghost use Rattle.lang.specs.Checks.{unless, or_else};
ghost use Rattle.reach_marks.specs.Marks.{reachable};
ghost use Rattle.repairs.specs.Damaged.{Damaged, unpacked_entries, repaired_left};
ghost use Rattle.repairs.specs.Repairs.{damaged_of};
ghost use Rattle.repair_entries.specs.Entering.{EntersFrom, Enters};
ghost use Rattle.repair_passes.specs.Mending.{handed_on, mend_lists, Mends};

use lang::Written;
use reach_marks::reachable_array;
use repair_entries::unpack_entries;
use repair_fixes::fix_program;
use repair_loops::warn_loops;
use repair_refusals::damaged_refusal;
use repairs::{Entered, Validated};
use words::slices::zero_all;

// The left entry of n instructions, or -1 where it is past the end.
fn repaired_left(n: usize, left_entry: i32) -> i32
    ensures { result ≡ cond (both (non_neg left_entry) (leb n (word_of left_entry))) (negsuc 0)
        left_entry }
{
    let entry = words::word_of(left_entry);
    if 2147483648 <= entry {
        return left_entry;
    }
    if n <= (entry as usize) {
        -1
    } else {
        left_entry
    }
}

// The refusal of the font; then 15, unless the lists have four places and one for each of n instructions.
fn lent_refusal(font: u32, n: usize, program: usize, through: usize) -> u32
    requires { n < 4611686018427387904 }
    ensures { result ≡ or_else font (unless 15 (both (eqb program (4 * n)) (eqb through n))) }
{
    if font != 0 {
        return font;
    }
    if program != 4 * n {
        return 15;
    }
    if through == n { 0 } else { 15 }
}

// Two places for each entry that a font can have.
fn entry_places() -> [i32; 512]
    ensures { length result ≡ 512 }
{
    [0i32; 512]
}

// A place for each instruction that a program can have.
fn mark_places() -> [u8; 32767]
    ensures { length result ≡ 32767 }
{
    [0u8; 32767]
}

// The entries, and what they lead to: `unpacked` has 512 places, and `marks` and `through` one for each instruction.
fn enter(
    instructions: &[i32],
    entries: &[i32],
    left_entry: i32,
    passthrough: &[u8],
    unpacked: &mut [i32],
    marks: &mut [u8],
    through: &mut [u8],
    warnings: &mut [i32],
) -> Entered
    requires { (count instructions.now ≤ 32767) × (length entries.now / 2 ≤ 256)
        × (length unpacked.old ≡ 512) × (length marks.old ≡ count instructions.now)
        × (length through.old ≡ count instructions.now) }
    ensures { (d : Damaged) →
        EntersFrom d instructions.now entries.now left_entry passthrough.now
        →
        Enters d unpacked.old through.old warnings.old result unpacked.new
        through.new warnings.new
        × (marks.new ≡ reachable d.instructions (unpacked_entries d) (repaired_left d)) }
{
    let entered = unpack_entries(
        instructions,
        entries,
        left_entry,
        passthrough,
        unpacked,
        through,
        warnings,
    );
    let left = repaired_left(instructions.len() / 4, left_entry);
    reachable_array(instructions, &unpacked[..2 * entered.entries], left, marks);
    entered
}

// The repaired left entry and how many warnings there are with those of loops, or the number of their refusal.
fn handed_on(left: i32, written: Written) -> Validated
    ensures { result ≡ handed_on left written }
{
    match written {
        Written::Refused(number) => Validated::Refused(number),
        Written::Count(total) => Validated::Fixed(left, total),
    }
}

// The repaired program and its passthrough, in lists of just their length, and the warnings as far as their list goes.
// Answers the repaired left entry and how many warnings there are. 1 to 4 of the font, and then 15 where the first two
// lists have another length: nothing is done then. 12, where the loops of the repaired program can't be looked for: all
// is done but their warnings. Work is left zero.
pub fn mend(
    instructions: &[i32],
    kerns: &[i32],
    entries: &[i32],
    boundary: i32,
    left_entry: i32,
    replacement: i32,
    existing: &[u64; 4],
    passthrough: &[u8],
    program: &mut [i32],
    through: &mut [u8],
    warnings: &mut [i32],
    work: &mut [u32],
) -> Validated
    ensures { Mends
        (damaged_of instructions.now kerns.now entries.now boundary
        left_entry replacement existing.now passthrough.now)
        (mend_lists program.old through.old warnings.old work.old) result
        (mend_lists program.new through.new warnings.new work.new) }
{
    let n = instructions.len() / 4;
    let font = damaged_refusal(
        instructions,
        kerns,
        entries,
        boundary,
        left_entry,
        replacement,
        passthrough,
    );
    let number = lent_refusal(font, n, program.len(), through.len());
    if number != 0 {
        zero_all(work);
        return Validated::Refused(number);
    }
    let mut unpacked = entry_places();
    let mut marks = mark_places();
    let entered = enter(
        instructions,
        entries,
        left_entry,
        passthrough,
        &mut unpacked,
        &mut marks[..n],
        through,
        warnings,
    );
    let count = fix_program(
        instructions,
        kerns,
        boundary,
        words::word_of(replacement),
        existing,
        &marks[..n],
        through,
        program,
        warnings,
        entered.warnings,
    );
    let left = repaired_left(n, left_entry);
    let written = warn_loops(
        program,
        kerns,
        &unpacked[..2 * entered.entries],
        left,
        warnings,
        count,
        work,
    );
    handed_on(left, written)
}
