// The record at an index of a lent list of instruction numbers, as a struct, after `Instruction` of ligkern/lang.rs
// (lines 28 to 54).
ghost use Rattle.std.specs.Prelude.{◌≡◌};
ghost use Rattle.words.specs.Words.{Word, number_of};
ghost use Rattle.lang.specs.Records.{field, next_of, operation_of, instruction_at};

use crate::operation::{Operation, lig_kern_operation_from_bytes};
use tfm::{Char, FixWord};

#[derive(Clone, Copy)]
pub struct Instruction {
    // Where a chain goes on: after so many skipped instructions, or nowhere.
    pub next_instruction: Option<u8>,
    pub right_char: Char,
    pub operation: Operation,
}

// Number k of instruction i, as its 32 bits; 0 past the last instruction.
pub fn field_at(instructions: &[i32], i: usize, k: u8) -> u32
    ensures { Word (field instructions.now i k) result }
{
    if i < instructions.len() / 4 {
        words::i32s::word_at(instructions, 4 * i + (k as usize))
    } else {
        0
    }
}

fn next_of(word: u32) -> Option<u8>
    ensures { result ≡ next_of (number_of word) }
{
    if word < 2147483648 {
        Some((word % 256) as u8)
    } else {
        None
    }
}

fn operation_of(kind: u32, operand: u32) -> Operation
    ensures { result ≡ operation_of kind (number_of operand) }
{
    if kind == 1 {
        return Operation::KernAtIndex((operand % 65536) as u16);
    }
    if kind == 2 {
        return lig_kern_operation_from_bytes((operand / 256 % 128) as u8, (operand % 256) as u8);
    }
    if kind == 3 {
        return Operation::EntrypointRedirect((operand % 65536) as u16, operand / 65536 % 2 == 1);
    }
    Operation::Kern(FixWord(words::number_of(operand)))
}

// The instruction at index i; past the last one, the instruction of four zeros.
pub fn instruction_at(instructions: &[i32], i: usize) -> Instruction
    ensures { result ≡ instruction_at instructions.now i }
{
    let right = field_at(instructions, i, 1) % 256;
    Instruction {
        next_instruction: next_of(field_at(instructions, i, 0)),
        right_char: Char(right as u8),
        operation: operation_of(field_at(instructions, i, 2), field_at(instructions, i, 3)),
    }
}
