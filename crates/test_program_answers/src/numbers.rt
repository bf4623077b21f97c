// The answers about numbers and op bytes: S, Z, O and V.
use lang::Written;
use lang::operation::{Operation, PostLigOperation, lig_kern_operation_from_bytes};
use test_requests::answer::{bit, put_one};
use test_requests::request::number_at;
use tfm::{Char, FixWord, ScalingError};

fn put_scaled(scaled: Result<i32, ScalingError>, out: &mut [i32]) -> Written {
    match scaled {
        Ok(v) => Written::Count(put_one(out, 0, words::word_of(v))),
        Err(error) => Written::Refused(error.number()),
    }
}

// S kern design
pub(crate) fn scaled(numbers: &[i32], out: &mut [i32]) -> Written {
    let kern = FixWord(number_at(numbers, 0));
    put_scaled(kern.to_scaled(FixWord(number_at(numbers, 1)), 0, 0), out)
}

// Z kern design size magnification
pub(crate) fn scaled_at(numbers: &[i32], out: &mut [i32]) -> Written {
    let kern = FixWord(number_at(numbers, 0));
    let design = FixWord(number_at(numbers, 1));
    put_scaled(
        kern.to_scaled(design, number_at(numbers, 2), number_at(numbers, 3)),
        out,
    )
}

// The standard op byte of an operation.
fn op_byte(operation: PostLigOperation) -> u32 {
    match operation {
        PostLigOperation::RetainNeitherMoveToInserted => 0,
        PostLigOperation::RetainRightMoveToInserted => 1,
        PostLigOperation::RetainLeftMoveNowhere => 2,
        PostLigOperation::RetainBothMoveNowhere => 3,
        PostLigOperation::RetainRightMoveToRight => 5,
        PostLigOperation::RetainLeftMoveToInserted => 6,
        PostLigOperation::RetainBothMoveToInserted => 7,
        PostLigOperation::RetainBothMoveToRight => 11,
    }
}

fn put_operation(operation: Operation, out: &mut [i32]) -> usize {
    match operation {
        Operation::KernAtIndex(i) => {
            let a = put_one(out, 0, 1);
            put_one(out, a, i as u32)
        }
        Operation::Ligature {
            char_to_insert,
            post_lig_operation,
            post_lig_tag_invalid,
        } => {
            let a = put_one(out, 0, 2);
            let b = put_one(out, a, op_byte(post_lig_operation));
            let c = put_one(out, b, char_to_insert.0 as u32);
            put_one(out, c, bit(post_lig_tag_invalid))
        }
        _ => 0,
    }
}

// O op_byte remainder
pub(crate) fn operation(numbers: &[i32], out: &mut [i32]) -> Written {
    let op = (words::i32s::word_at(numbers, 0) % 256) as u8;
    let remainder = (words::i32s::word_at(numbers, 1) % 256) as u8;
    Written::Count(put_operation(lig_kern_operation_from_bytes(op, remainder), out))
}

// V c
pub(crate) fn seven_bit(numbers: &[i32], out: &mut [i32]) -> Written {
    let c = Char((words::i32s::word_at(numbers, 0) % 256) as u8);
    Written::Count(put_one(out, 0, bit(c.is_seven_bit())))
}
