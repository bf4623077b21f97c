// A font of six instructions, as records and as numbers. With f = 102, i = 105, l = 108, x = 120 and ! = 33:
//   0  i, LIG to 200                      3  f, a redirect: it is on the chain, and passed over
//   1  !, kern index 0; skips the next    4  l, a kern; stops
//   2  x, a kern                          5  !, a kern, which no chain reaches
// f enters at 0, so that its chain is 0, 1, 3, 4; 200, which f i becomes, at 2; the left boundary at 4.
ghost use Rattle.std.specs.Prelude.{◌≤◌};

use lang::instruction::Instruction;
use lang::operation::{Operation, PostLigOperation};
use tfm::{Char, FixWord};

// At the word's end i is the right item.
pub(crate) const BOUNDARY: i32 = 105;

pub(crate) const LEFT_ENTRY: i32 = 4;

// 10 points, at which a kern of 131,072 is 81,920 scaled points.
pub(crate) const DESIGN_SIZE: i32 = 10485760;

fn instruction(next: Option<u8>, right: u8, operation: Operation) -> Instruction {
    Instruction {
        next_instruction: next,
        right_char: Char(right),
        operation: operation,
    }
}

// LIG to a character.
fn lig(right: u8, inserted: u8) -> Instruction {
    let operation = Operation::Ligature {
        char_to_insert: Char(inserted),
        post_lig_operation: PostLigOperation::RetainNeitherMoveToInserted,
        post_lig_tag_invalid: false,
    };
    instruction(Some(0), right, operation)
}

// The kern at an index; skips the next instruction.
fn kern_at(right: u8, index: u16) -> Instruction {
    instruction(Some(1), right, Operation::KernAtIndex(index))
}

fn kern(right: u8, size: i32) -> Instruction {
    instruction(Some(0), right, Operation::Kern(FixWord(size)))
}

// A kern that stops the chain.
fn last_kern(right: u8, size: i32) -> Instruction {
    instruction(None, right, Operation::Kern(FixWord(size)))
}

fn redirect(right: u8, target: u16) -> Instruction {
    instruction(Some(0), right, Operation::EntrypointRedirect(target, false))
}

// The program as records. The redirect's target, 1,481, is 256 times op byte 5 and 201: as a rule it would be LIG/> to
// 201.
pub(crate) fn records() -> [Instruction; 6] {
    [
        lig(105, 200),
        kern_at(33, 0),
        kern(120, -131072),
        redirect(102, 1481),
        last_kern(108, 65536),
        kern(33, 262144),
    ]
}

// Instruction i: next, right character, kind and operand.
fn put(list: &mut [i32], i: usize, next: i32, right: u32, kind: u32, operand: i32)
    requires { i ≤ 5 }
{
    words::i32s::put_word(list, 4 * i, words::word_of(next));
    words::i32s::put_word(list, 4 * i + 1, right);
    words::i32s::put_word(list, 4 * i + 2, kind);
    words::i32s::put_word(list, 4 * i + 3, words::word_of(operand));
}

// The same program as numbers.
pub(crate) fn put_numbers(list: &mut [i32]) {
    put(list, 0, 0, 105, 2, 200);
    put(list, 1, 1, 33, 1, 0);
    put(list, 2, 0, 120, 0, -131072);
    put(list, 3, 0, 102, 3, 1481);
    put(list, 4, -1, 108, 0, 65536);
    put(list, 5, 0, 33, 0, 262144);
}

pub(crate) fn kerns() -> [i32; 1] {
    [131072]
}

pub(crate) fn entries() -> [i32; 4] {
    [102, 0, 200, 2]
}
