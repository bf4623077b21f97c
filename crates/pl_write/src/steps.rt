// An instruction as its properties, and all of them one after the other.
ghost use Rattle.std.specs.Prelude.{◌<◌, ◌++◌};
ghost use Rattle.words.specs.Words.{number_of, Word};
ghost use Rattle.lang.specs.Records.{count, field};
ghost use Rattle.property_lists.specs.Putting.{PutsCounted};
ghost use Rattle.property_lists.specs.Displays.{kern_shown, step_line, next_line, program_lines};

use crate::labels::{next_label, put_labels};
use lang::instruction::field_at;
use pl_lines::{put_krn, put_lig, put_next};
use words::i32s::word_at;

// The kern of an instruction, as its 32 bits.
fn kern_of(instructions: &[i32], kerns: &[i32], i: usize) -> u32
    ensures { Word (kern_shown instructions.now kerns.now i) result }
{
    let operand = field_at(instructions, i, 3);
    if field_at(instructions, i, 2) == 1 {
        return word_at(kerns, operand as usize);
    }
    operand
}

// The step of an instruction. Answers the place after it.
fn put_step(instructions: &[i32], kerns: &[i32], i: usize, out: &mut [u8], at: usize) -> usize
    ensures { PutsCounted out.old at (step_line instructions.now kerns.now i) result
        out.new }
{
    let right = field_at(instructions, i, 1) % 256;
    if field_at(instructions, i, 2) == 2 {
        let operand = field_at(instructions, i, 3);
        return put_lig(out, at, operand / 256, right, operand % 256);
    }
    put_krn(out, at, right, kern_of(instructions, kerns, i))
}

// The step and where it goes on. Answers the place after them.
fn put_instruction(
    instructions: &[i32],
    kerns: &[i32],
    i: usize,
    out: &mut [u8],
    at: usize,
) -> usize
    ensures { PutsCounted out.old at (step_line instructions.now kerns.now i
        ++ next_line (field instructions.now i 0)) result out.new }
{
    let next = put_step(instructions, kerns, i, out, at);
    put_next(out, next, field_at(instructions, i, 0))
}

// All instructions, each after its labels. Answers the place after them.
pub(crate) fn put_steps(
    instructions: &[i32],
    kerns: &[i32],
    table: &[i32; 257],
    out: &mut [u8],
    at: usize,
) -> usize
    ensures { PutsCounted out.old at
        (program_lines instructions.now kerns.now table.now
        (count instructions.now)) result out.new }
{
    let mut next = at.min(out.len() + 1);
    let mut label = next_label(table, 0, instructions.len() / 4);
    for i in 0..instructions.len() / 4 {
        if i == label {
            next = put_labels(table, i, out, next);
            label = next_label(table, i + 1, instructions.len() / 4);
        }
        next = put_instruction(instructions, kerns, i, out, next);
    }
    next
}
