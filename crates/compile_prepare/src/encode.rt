// What each row's rule does: its op byte and inserted character, or 128 and its scaled kern. After lines 171 to 224 of
// ligkern/compiler.rs.
ghost use Rattle.std.specs.Prelude.{◌≡◌};
ghost use Rattle.tfm.specs.Scaled.{to_scaled};
ghost use Rattle.lang.specs.Every.{both};
ghost use Rattle.compiling.specs.Rows.{Ascending};
ghost use Rattle.compiling.specs.PairRows.{Encodes};
ghost use Rattle.compiling.specs.RowNumbers.{byte_of_operation, kern_effect, effect_of};

use compile_rows::{get, put};
use compiling::Effect;
use lang::operation::{Operation, PostLigOperation};
use program_chain::operation_at;
use tfm::FixWord;

// The standard op byte of an operation.
fn op_byte(operation: PostLigOperation) -> u32
    ensures { result ≡ byte_of_operation operation }
{
    match operation {
        PostLigOperation::RetainNeitherMoveToInserted => 0,
        PostLigOperation::RetainRightMoveToInserted => 1,
        PostLigOperation::RetainLeftMoveNowhere => 2,
        PostLigOperation::RetainBothMoveNowhere => 3,
        PostLigOperation::RetainRightMoveToRight => 5,
        PostLigOperation::RetainLeftMoveToInserted => 6,
        PostLigOperation::RetainBothMoveToInserted => 7,
        PostLigOperation::RetainBothMoveToRight => 11,
    }
}

// A kern at a design size; one that does not scale is a kern of zero.
fn kern_effect(kern: FixWord, design_size: i32) -> Effect
    ensures { result ≡ kern_effect (to_scaled kern.0 design_size) }
{
    match kern.at_design_size(FixWord(design_size)) {
        Ok(v) => Effect {
            op: 128,
            value: words::word_of(v),
            scaled: true,
        },
        Err(_) => Effect {
            op: 128,
            value: 0,
            scaled: false,
        },
    }
}

// What an operation does at a design size, as a rule.
fn effect_of(operation: Operation, design_size: i32) -> Effect
    ensures { result ≡ effect_of design_size operation }
{
    match operation {
        Operation::Kern(kern) => kern_effect(kern, design_size),
        Operation::Ligature {
            char_to_insert,
            post_lig_operation,
            post_lig_tag_invalid: _,
        } => Effect {
            op: op_byte(post_lig_operation),
            value: char_to_insert.0 as u32,
            scaled: true,
        },
        _ => Effect {
            op: 128,
            value: 0,
            scaled: false,
        },
    }
}

fn both(a: bool, b: bool) -> bool
    ensures { result ≡ both a b }
{
    if a { b } else { false }
}

// The rule of each row. Answers whether every kern among them has a scaled value.
pub(crate) fn encode(
    instructions: &[i32],
    kerns: &[i32],
    design_size: i32,
    work: &mut [u32],
    n: usize,
) -> bool
    requires { Ascending n work.old }
    ensures { Encodes instructions.now kerns.now design_size n
        work.old work.new result }
{
    let mut scaled = true;
    for k in 0..n {
        let index = get(work, k, 2) as usize;
        let operation = operation_at(instructions, kerns, index);
        let effect = effect_of(operation, design_size);
        put(work, k, 3, effect.op);
        put(work, k, 4, effect.value);
        scaled = both(scaled, effect.scaled);
    }
    scaled
}
