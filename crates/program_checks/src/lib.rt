// The refusals 1 and 2 of a program (R230, R231), and 4 of a single number (R233), each a function whose result is the
// number where it holds and 0 where it does not. Every one is linear in what it is lent. The refusals of what is lent
// beside the program are crate program_limits. And what a letter is, and the lower of two numbers.
#![tactic(auto)]

ghost use Rattle.std.specs.Prelude.{◌≡◌, ◌<◌};
ghost use Rattle.lang.specs.Records.{is_instruction, absent_or, within, operand_fits};
ghost use Rattle.lang.specs.Checks.{size_refusal, record_refusal, absent_refusal, range_refusal, program_refusal};
ghost use Rattle.lang.specs.Checks.{lower};
ghost use Rattle.lang.specs.Checks.{is_letter};
ghost use Rattle.words.specs.Words.{number_of};

use lang::instruction::field_at;

// 1: instruction numbers not in fours, or over 32,767 instructions.
pub fn size_refusal(instructions: &[i32]) -> u32
    ensures { result ≡ size_refusal instructions.now }
{
    if instructions.len() % 4 == 0 {
        if instructions.len() / 4 <= 32767 {
            return 0;
        }
    }
    1
}

// -1, or 0 to n; the number is given by its 32 bits.
fn is_absent_or(n: u32, word: u32) -> bool
    requires { n < 2147483648 }
    ensures { result ≡ absent_or n (number_of word) }
{
    word <= n || word == 4294967295
}

// 0 to n; the number is given by its 32 bits.
fn is_within(n: u32, word: u32) -> bool
    requires { n < 2147483648 }
    ensures { result ≡ within n (number_of word) }
{
    word <= n
}

fn operand_fits(kind: u32, word: u32) -> bool
    ensures { result ≡ operand_fits kind (number_of word) }
{
    if kind == 0 {
        return true;
    }
    if kind == 1 {
        return is_within(65535, word);
    }
    if kind == 2 {
        return is_within(32767, word);
    }
    if kind == 3 {
        return is_within(131071, word);
    }
    false
}

fn is_instruction(instructions: &[i32], i: usize) -> bool
    ensures { result ≡ is_instruction instructions.now i }
{
    if !is_absent_or(255, field_at(instructions, i, 0)) {
        return false;
    }
    if !is_within(255, field_at(instructions, i, 1)) {
        return false;
    }
    operand_fits(field_at(instructions, i, 2), field_at(instructions, i, 3))
}

// 2: a record is no instruction.
pub fn record_refusal(instructions: &[i32]) -> u32
    ensures { result ≡ record_refusal instructions.now }
{
    for i in 0..instructions.len() / 4 {
        if !is_instruction(instructions, i) {
            return 2;
        }
    }
    0
}

// 1, else 2.
pub fn program_refusal(instructions: &[i32]) -> u32
    ensures { result ≡ program_refusal instructions.now }
{
    let size = size_refusal(instructions);
    if size != 0 {
        return size;
    }
    record_refusal(instructions)
}

// 4: a boundary character (n is 255) or a left entry (n is 65,535), neither -1 nor in range.
pub fn absent_refusal(n: u16, x: i32) -> u32
    ensures { result ≡ absent_refusal n x }
{
    if is_absent_or(n as u32, words::word_of(x)) {
        0
    } else {
        4
    }
}

// 4: a number that must be there, out of range.
pub fn range_refusal(n: u16, x: i32) -> u32
    ensures { result ≡ range_refusal n x }
{
    if is_within(n as u32, words::word_of(x)) {
        0
    } else {
        4
    }
}

// A letter: 0 to 1,114,111, surrogates aside.
pub fn is_letter(c: u32) -> bool
    ensures { result ≡ is_letter c }
{
    if c <= 55295 {
        return true;
    }
    57344 <= c && c <= 1114111
}

// The lower of two numbers of which 0 is none.
pub fn lower_of(a: u32, b: u32) -> u32
    ensures { result ≡ lower a b }
{
    if a == 0 {
        return b;
    }
    if b == 0 {
        return a;
    }
    if a <= b { a } else { b }
}
