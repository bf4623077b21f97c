// What is not written as a property list (property_lists/specs/Displays.antt): 1 to 4 of what is lent, and 24. Linear
// in what is lent.
#![tactic(auto)]

ghost use Rattle.std.specs.Prelude.{◌≡◌, ◌<◌};
ghost use Rattle.words.specs.Words.{number_of};
ghost use Rattle.lang.specs.Every.{every};
ghost use Rattle.lang.specs.Operations.{is_standard};
ghost use Rattle.lang.specs.Records.{count};
ghost use Rattle.property_lists.specs.Displays.{next_shown, operand_shown, instruction_shown, kerns_shown};
ghost use Rattle.property_lists.specs.Displays.{entries_shown};
ghost use Rattle.property_lists.specs.Displays.{left_shown, shows_all, lent_fault, display_fault};

use lang::instruction::field_at;
use program_checks::{absent_refusal, program_refusal};
use program_limits::{entries_refusal, kerns_refusal};
use words::i32s::word_at;

// Next, by its 32 bits: none, or at most 127 and to an instruction.
fn is_next_shown(n: usize, i: usize, next: u32) -> bool
    requires { i < n }
    ensures { result ≡ next_shown n i (number_of next) }
{
    if 2147483648 <= next {
        return true;
    }
    if 127 < next {
        return false;
    }
    (next as usize) < n - i - 1
}

// An op byte is standard.
fn is_op_shown(op: u32) -> bool
    ensures { result ≡ is_standard op }
{
    op / 4 <= op / 2 % 2 + op % 2
}

// The operand of a kind, by its 32 bits.
fn is_operand_shown(kerns: usize, kind: u32, operand: u32) -> bool
    ensures { result ≡ operand_shown kerns kind (number_of operand) }
{
    if kind == 0 {
        return operand != 2147483648;
    }
    if kind == 1 {
        return (operand as usize) < kerns;
    }
    if kind == 2 {
        return is_op_shown(operand / 256);
    }
    false
}

fn is_instruction_shown(instructions: &[i32], kerns: usize, i: usize) -> bool
    requires { i < count instructions.now }
    ensures { result ≡ instruction_shown instructions.now kerns i }
{
    if !is_next_shown(instructions.len() / 4, i, field_at(instructions, i, 0)) {
        return false;
    }
    is_operand_shown(
        kerns,
        field_at(instructions, i, 2),
        field_at(instructions, i, 3),
    )
}

// Every instruction is written.
fn instructions_shown(instructions: &[i32], kerns: usize) -> bool
    ensures { result ≡ every (count instructions.now)
        (instruction_shown instructions.now kerns) }
{
    for i in 0..instructions.len() / 4 {
        if !is_instruction_shown(instructions, kerns, i) {
            return false;
        }
    }
    true
}

// Every kern of the list has a text, used or not.
fn kerns_shown(kerns: &[i32]) -> bool
    ensures { result ≡ kerns_shown kerns.now }
{
    for i in 0..kerns.len() {
        if word_at(kerns, i) == 2147483648 {
            return false;
        }
    }
    true
}

// Every entry is an instruction.
fn entries_shown(n: usize, entries: &[i32]) -> bool
    ensures { result ≡ entries_shown n entries.now }
{
    for i in 0..entries.len() / 2 {
        if n <= (word_at(entries, 2 * i + 1) as usize) {
            return false;
        }
    }
    true
}

// The left entry, by its 32 bits: none, or an instruction.
fn is_left_shown(n: usize, left: u32) -> bool
    ensures { result ≡ left_shown n (number_of left) }
{
    if 2147483648 <= left {
        return true;
    }
    (left as usize) < n
}

// All that is lent is written.
fn shows_all(instructions: &[i32], kerns: &[i32], entries: &[i32], left_entry: i32) -> bool
    ensures { result ≡ shows_all instructions.now kerns.now entries.now
        left_entry }
{
    if !instructions_shown(instructions, kerns.len()) {
        return false;
    }
    if !kerns_shown(kerns) {
        return false;
    }
    if !entries_shown(instructions.len() / 4, entries) {
        return false;
    }
    is_left_shown(instructions.len() / 4, words::word_of(left_entry))
}

// 3, else 4: kerns, entries, the boundary character and the left entry.
fn lent_refusal(kerns: &[i32], entries: &[i32], boundary: i32, left_entry: i32) -> u32
    ensures { result ≡ lent_fault kerns.now entries.now boundary left_entry }
{
    let kern = kerns_refusal(kerns);
    if kern != 0 {
        return kern;
    }
    let entry = entries_refusal(65535, entries);
    if entry != 0 {
        return entry;
    }
    let character = absent_refusal(255, boundary);
    if character != 0 {
        return character;
    }
    absent_refusal(65535, left_entry)
}

// The number of what is not written, 0 where all is: 1, 2, 3, 4, else 24.
pub fn display_fault(
    instructions: &[i32],
    kerns: &[i32],
    entries: &[i32],
    boundary: i32,
    left_entry: i32,
) -> u32
    ensures { result ≡ display_fault instructions.now kerns.now entries.now boundary
        left_entry }
{
    let program = program_refusal(instructions);
    if program != 0 {
        return program;
    }
    let lent = lent_refusal(kerns, entries, boundary, left_entry);
    if lent != 0 {
        return lent;
    }
    if shows_all(instructions, kerns, entries, left_entry) {
        0
    } else {
        24
    }
}
