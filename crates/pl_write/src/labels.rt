// The labels of an instruction, read from the table of 257 entries.
ghost use Rattle.std.specs.Prelude.{ℕ, ◌<◌, ◌≤◌};
ghost use Rattle.property_lists.specs.Putting.{PutsCounted};
ghost use Rattle.property_lists.specs.Displays.{label_lines, char_labels};
ghost use Rattle.pl_write.specs.NextLabels.{NextLabel};

use lang::entries::entry_at;
use pl_labels::{put_boundary_label, put_label};

// The lowest instruction from `from` on and below n that has a label, or n.
pub(crate) fn next_label(table: &[i32; 257], from: usize, n: usize) -> usize
    requires { from ≤ n }
    ensures { NextLabel table.now from result }
{
    let mut lowest = n;
    for c in 0..257 {
        let entry = entry_at(table, c) as usize;
        if from <= entry {
            lowest = entry.min(lowest);
        }
    }
    lowest
}

// The labels of the characters, ascending. Answers the place after them.
fn put_chars(table: &[i32; 257], i: usize, out: &mut [u8], at: usize) -> usize
    ensures { PutsCounted out.old at (char_labels table.now i 256) result out.new }
{
    let mut next = at.min(out.len() + 1);
    for c in 0..256 {
        if (entry_at(table, c) as usize) == i {
            next = put_label(out, next, c as u32);
        }
    }
    next
}

// All labels of an instruction, the left boundary's first. Answers the place after them.
pub(crate) fn put_labels(table: &[i32; 257], i: usize, out: &mut [u8], at: usize) -> usize
    ensures { PutsCounted out.old at (label_lines table.now i) result out.new }
{
    if (entry_at(table, 256) as usize) == i {
        let next = put_boundary_label(out, at);
        return put_chars(table, i, out, next);
    }
    put_chars(table, i, out, at)
}
