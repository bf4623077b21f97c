// Instructions as an answer writes them: their number, then four numbers each.
use lang::instruction::field_at;
use lang::operation::{Operation, lig_kern_operation_from_bytes};
use test_requests::answer::{put_count, put_one};

// The operand of a ligature whose op byte is not standard has byte 4: the Rust no longer knows the one it was made
// from.
fn ligature_operand(operand: u32) -> u32 {
    match lig_kern_operation_from_bytes((operand / 256 % 128) as u8, (operand % 256) as u8) {
        Operation::Ligature {
            char_to_insert: _,
            post_lig_operation: _,
            post_lig_tag_invalid,
        } => {
            if post_lig_tag_invalid {
                1024 + operand % 256
            } else {
                operand
            }
        }
        _ => operand,
    }
}

fn operand_by(kind: u32, operand: u32) -> u32 {
    if kind == 2 {
        return ligature_operand(operand);
    }
    operand
}

fn put_instruction(out: &mut [i32], at: usize, instructions: &[i32], i: usize) -> usize {
    let a = put_one(out, at, field_at(instructions, i, 0));
    let b = put_one(out, a, field_at(instructions, i, 1));
    let kind = field_at(instructions, i, 2);
    let c = put_one(out, b, kind);
    put_one(out, c, operand_by(kind, field_at(instructions, i, 3)))
}

// The first n instructions of a list.
pub(crate) fn put_instructions(
    out: &mut [i32],
    at: usize,
    instructions: &[i32],
    n: usize,
) -> usize {
    let mut next = put_count(out, at, n);
    for i in 0..n {
        next = put_instruction(out, next, instructions, i);
    }
    next
}
