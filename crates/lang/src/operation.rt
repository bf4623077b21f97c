// Op bytes, after `Operation` and `PostLigOperation` of ligkern/lang.rs: TeX 545, TFtoPL 77. What one below 128 means
// is worked out from its quotient by four and its two low bits; no table holds it.
ghost use Rattle.std.specs.Prelude.{◌≡◌, ◌+◌, ◌≤◌};
ghost use Rattle.lang.specs.Operations.{retains, ligature, from_bytes};

use tfm::{Char, FixWord};

// What to do after inserting a character: which of the two characters to retain, and where the cursor moves. In the
// order of their op bytes.
#[derive(Clone, Copy)]
pub enum PostLigOperation {
    // LIG
    RetainNeitherMoveToInserted,
    // LIG/
    RetainRightMoveToInserted,
    // /LIG
    RetainLeftMoveNowhere,
    // /LIG/
    RetainBothMoveNowhere,
    // LIG/>
    RetainRightMoveToRight,
    // /LIG>
    RetainLeftMoveToInserted,
    // /LIG/>
    RetainBothMoveToInserted,
    // /LIG/>>
    RetainBothMoveToRight,
}

// A lig/kern operation.
#[derive(Clone, Copy)]
pub enum Operation {
    // A kern of this size.
    Kern(FixWord),
    // The kern at this index of the kerns.
    KernAtIndex(u16),
    // A ligature.
    Ligature {
        char_to_insert: Char,
        post_lig_operation: PostLigOperation,
        // The op byte was none of the eight standard ones; it acts as LIG.
        post_lig_tag_invalid: bool,
    },
    // An entry that stands for the instruction at this index. The flag is carried, and never read.
    EntrypointRedirect(u16, bool),
}

// The operation that moves nowhere, or to what is inserted in the left's place, by what is retained of the left and of
// the right character, 0 or 1 each.
fn retains_unmoved(left: u8, right: u8) -> PostLigOperation
    ensures { result ≡ retains left right 0 }
{
    if left == 0 {
        if right == 0 {
            PostLigOperation::RetainNeitherMoveToInserted
        } else {
            PostLigOperation::RetainRightMoveToInserted
        }
    } else if right == 0 {
        PostLigOperation::RetainLeftMoveNowhere
    } else {
        PostLigOperation::RetainBothMoveNowhere
    }
}

// The operation by what is retained, and by the cursor's advance, which passes over no more than that.
fn retains(left: u8, right: u8, advance: u8) -> PostLigOperation
    requires { advance ≤ left + right }
    ensures { result ≡ retains left right advance }
{
    if advance == 0 {
        retains_unmoved(left, right)
    } else if left == 0 {
        PostLigOperation::RetainRightMoveToRight
    } else if right == 0 {
        PostLigOperation::RetainLeftMoveToInserted
    } else if advance == 1 {
        PostLigOperation::RetainBothMoveToInserted
    } else {
        PostLigOperation::RetainBothMoveToRight
    }
}

// The operation of an op byte below 128, 4a + 2b + c: standard where a is at most b + c. Any other is LIG, marked.
fn ligature(op_byte: u8, inserted: u8) -> Operation
    ensures { result ≡ ligature op_byte inserted }
{
    let a = op_byte / 4;
    let b = op_byte / 2 % 2;
    let c = op_byte % 2;
    if a <= b + c {
        marked(retains(b, c, a), inserted, false)
    } else {
        marked(
            PostLigOperation::RetainNeitherMoveToInserted,
            inserted,
            true,
        )
    }
}

fn marked(operation: PostLigOperation, inserted: u8, invalid: bool) -> Operation
    ensures { result ≡ Operation.Ligature (record { 0 = inserted }) operation invalid }
{
    Operation::Ligature {
        char_to_insert: Char(inserted),
        post_lig_operation: operation,
        post_lig_tag_invalid: invalid,
    }
}

// The operation with these two bytes: a ligature below 128, from there on a kern index.
pub fn lig_kern_operation_from_bytes(op_byte: u8, remainder: u8) -> Operation
    ensures { result ≡ from_bytes op_byte remainder }
{
    if op_byte < 128 {
        ligature(op_byte, remainder)
    } else {
        let high = (op_byte - 128) as u16;
        let low = remainder as u16;
        let index = 256 * high + low;
        Operation::KernAtIndex(index)
    }
}
