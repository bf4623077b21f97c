// A font's boundary character and LIGTABLE as a property list, as TFtoPL writes it. The contract is that of
// property_lists/specs/Displays.antt. Linear in the program, and for each of its labels in the table of entries.
//   labels   the labels of an instruction        steps   an instruction, and all of them
#![tactic(auto)]

ghost use Rattle.words.specs.Words.{number_of};
ghost use Rattle.property_lists.specs.Putting.{PutsCounted};
ghost use Rattle.property_lists.specs.Displays.{lig_table_lines, display_text, Displays};

use lang::Written;
use lang::entries::entries_table;
use pl_labels::put_boundary;
use pl_put::bytes::put_bytes;
use pl_write_refusals::display_fault;
use steps::put_steps;
use words::slices::zero_all;

mod labels;
mod steps;

// LIGTABLE, and nothing where there are no instructions. Answers the place after it.
fn put_table(
    instructions: &[i32],
    kerns: &[i32],
    table: &[i32; 257],
    out: &mut [u8],
    at: usize,
) -> usize
    ensures { PutsCounted out.old at
        (lig_table_lines instructions.now kerns.now table.now) result out.new }
{
    if instructions.len() / 4 == 0 {
        return at.min(out.len() + 1);
    }
    let first = put_bytes(out, at, b"(LIGTABLE\n");
    let end = put_steps(instructions, kerns, table, out, first);
    put_bytes(out, end, b"   )\n")
}

// The whole text. Answers its length, or one more than there is room for.
fn put_display(
    instructions: &[i32],
    kerns: &[i32],
    entries: &[i32],
    boundary: i32,
    left_entry: i32,
    out: &mut [u8],
) -> usize
    ensures { PutsCounted out.old 0
        (display_text instructions.now kerns.now entries.now boundary left_entry) result
        out.new }
{
    let table = entries_table(entries, left_entry);
    let next = put_boundary(out, 0, words::word_of(boundary));
    put_table(instructions, kerns, &table, out, next)
}

// The text of a font at the front of a list that has room for it, then zeros. Answers its length.
pub fn display(
    instructions: &[i32],
    kerns: &[i32],
    entries: &[i32],
    boundary: i32,
    left_entry: i32,
    text: &mut [u8],
) -> Written
    ensures { Displays instructions.now kerns.now entries.now boundary
        left_entry text.old result text.new }
{
    zero_all(text);
    let fault = display_fault(instructions, kerns, entries, boundary, left_entry);
    if fault != 0 {
        return Written::Refused(fault);
    }
    let count = put_display(instructions, kerns, entries, boundary, left_entry, text);
    if text.len() < count {
        zero_all(text);
        return Written::Refused(15);
    }
    Written::Count(count)
}
