// Marks: which instructions a font's entries lead to, a byte an instruction (TFtoPL 66 to 70), after `reachable_array`
// of ligkern/lang.rs (lines 821 to 853).
#![tactic(auto)]

ghost use Rattle.std.specs.Prelude.{◌≡◌, cond, ◌/◌, ◌<◌, eqb, length, replicate};
ghost use Rattle.lang.specs.Records.{count};
ghost use Rattle.reach_marks.specs.Marks.{entries_marked, left_marked, onward_marked, reachable};

use program_chain::next_instruction;

// TFtoPL 68: no place is marked, then the entries are.
fn mark_entries(entries: &[i32], marks: &mut [u8])
    ensures { marks.new ≡ entries_marked (length marks.old) entries.now
        (length entries.now / 2) }
{
    words::slices::zero_all(marks);
    for k in 0..entries.len() / 2 {
        let entry = words::i32s::word_at(entries, 2 * k + 1) as usize;
        words::slices::put_item(marks, entry, 1);
    }
}

// TFtoPL 69: the left boundary's entry is marked, unless it is the last instruction.
fn mark_left(left_entry: i32, marks: &mut [u8])
    ensures { marks.new ≡ left_marked (length marks.old) left_entry
        marks.old }
{
    let entry = words::word_of(left_entry) as usize;
    if entry + 1 != marks.len() {
        words::slices::put_item(marks, entry, 1);
    }
}

// TFtoPL 70, of instruction i: where it is marked, so is the one it goes on to.
fn mark_onward(instructions: &[i32], i: usize, marks: &mut [u8])
    requires { i < count instructions.now }
    ensures { marks.new ≡ onward_marked instructions.now marks.old i }
{
    if words::slices::item_at(marks, i) == 0 {
        return;
    }
    let Some((_, on)) = next_instruction(instructions, i) else {
        return;
    };
    words::slices::put_item(marks, on, 1);
}

// The instructions that the entries lead to, in one pass: a chain only goes forward.
fn mark_reached(instructions: &[i32], entries: &[i32], left_entry: i32, marks: &mut [u8])
    requires { length marks.old ≡ count instructions.now }
    ensures { marks.new ≡ reachable instructions.now entries.now
        left_entry }
{
    mark_entries(entries, marks);
    mark_left(left_entry, marks);
    for i in 0..instructions.len() / 4 {
        mark_onward(instructions, i, marks);
    }
}

// 1 for each instruction that is reachable and 0 for each that is not, in a list of a byte an instruction; a list of
// another length is all zeros.
pub fn reachable_array(instructions: &[i32], entries: &[i32], left_entry: i32, marks: &mut [u8])
    ensures { marks.new ≡ cond
        (eqb (length marks.old) (count instructions.now))
        (reachable instructions.now entries.now left_entry)
        (replicate (length marks.old) 0) }
{
    if marks.len() != instructions.len() / 4 {
        words::slices::zero_all(marks);
        return;
    }
    mark_reached(instructions, entries, left_entry, marks);
}
