// What is wrong with a step of a program, after `validate_and_fix` of ligkern/lang.rs (lines 722 to 806); TFtoPL 70 to
// 77. Nothing is repaired here: crate `repair_fixes` does.
#![tactic(auto)]

ghost use Rattle.std.specs.Prelude.{◌≡◌, ℕ, get_or};
ghost use Rattle.words.specs.Words.{number_of};
ghost use Rattle.lang.specs.Operations.{is_standard};
ghost use Rattle.repairs.specs.Damaged.{program_by};
ghost use Rattle.repairs.specs.Repaired.{faults_of};
ghost use Rattle.repair_faults.specs.Tests.{exists_in, is_edge, skip_past_end, redirect_past_end, right_missing};
ghost use Rattle.repair_faults.specs.Tests.{kern_past_list, product_missing, tag_invalid};

use lang::instruction::field_at;
use repairs::Faults;
use words::slices::item_at;

// Character c exists.
fn exists(existing: &[u64; 4], c: u32) -> bool
    ensures { result ≡ exists_in existing.now c }
{
    let word = item_at(existing, (c / 64) as usize);
    (word >> ((c % 64) as u64)) % 2 == 1
}

// An op byte is one of the eight of TeX 545: it passes over no more than it retains.
fn is_standard(op: u32) -> bool
    ensures { result ≡ is_standard op }
{
    op / 4 <= op / 2 % 2 + op % 2
}

// TFtoPL 70: step i is reachable, and its skip passes the end.
fn skip_goes(instructions: &[i32], marks: &[u8], i: usize) -> bool
    ensures { result ≡ skip_past_end instructions.now marks.now i }
{
    if words::slices::item_at(marks, i) == 0 {
        return false;
    }
    let next = field_at(instructions, i, 0);
    if 2147483647 < next {
        return false;
    }
    let n = instructions.len() / 4;
    if n <= i {
        return true;
    }
    n - i <= (next as usize) + 1
}

// Step i is a redirect whose target is past the end, unless it is unreachable and passed over.
fn redirect_warns(instructions: &[i32], marks: &[u8], passthrough: &[u8], i: usize) -> bool
    ensures { result ≡ redirect_past_end instructions.now marks.now
        passthrough.now i }
{
    if field_at(instructions, i, 2) != 3 {
        return false;
    }
    let target = (field_at(instructions, i, 3) % 65536) as usize;
    if target < instructions.len() / 4 {
        return false;
    }
    if words::slices::item_at(marks, i) != 0 {
        return true;
    }
    words::slices::item_at(passthrough, i) == 0
}

// The boundary character is the right character; both as their 32 bits.
fn is_boundary(boundary: u32, right: u32) -> bool
    ensures { result ≡ is_edge (number_of boundary) (number_of right) }
{
    if 2147483647 < boundary {
        return false;
    }
    boundary == right
}

// Step i is for a right character that neither exists nor is the boundary character, which is lent as its 32 bits.
fn right_goes(instructions: &[i32], boundary: u32, existing: &[u64; 4], i: usize) -> bool
    ensures { result ≡ right_missing instructions.now (number_of boundary) existing.now
        i }
{
    if field_at(instructions, i, 2) == 3 {
        return false;
    }
    let right = field_at(instructions, i, 1);
    if exists(existing, right) {
        return false;
    }
    !is_boundary(boundary, right)
}

// The kern index of step i is past the list.
fn kern_goes(instructions: &[i32], kerns: &[i32], i: usize) -> bool
    ensures { result ≡ kern_past_list instructions.now kerns.now i }
{
    if field_at(instructions, i, 2) != 1 {
        return false;
    }
    kerns.len() <= field_at(instructions, i, 3) as usize
}

// The character that step i inserts does not exist.
fn product_goes(instructions: &[i32], existing: &[u64; 4], i: usize) -> bool
    ensures { result ≡ product_missing instructions.now existing.now i }
{
    if field_at(instructions, i, 2) != 2 {
        return false;
    }
    !exists(existing, field_at(instructions, i, 3) % 256)
}

// The op byte of step i is not standard.
fn tag_goes(instructions: &[i32], i: usize) -> bool
    ensures { result ≡ tag_invalid instructions.now i }
{
    if field_at(instructions, i, 2) != 2 {
        return false;
    }
    !is_standard(field_at(instructions, i, 3) / 256)
}

// What is wrong with step i, whatever replaces a character that does not exist.
pub fn faults(
    instructions: &[i32],
    kerns: &[i32],
    boundary: i32,
    existing: &[u64; 4],
    marks: &[u8],
    passthrough: &[u8],
    i: usize,
) -> Faults
    ensures { (n : ℕ) →
        result ≡ faults_of
        (program_by instructions.now kerns.now boundary n existing.now
        marks.now passthrough.now) i }
{
    let edge = words::word_of(boundary);
    Faults {
        skip: skip_goes(instructions, marks, i),
        redirect: redirect_warns(instructions, marks, passthrough, i),
        right: right_goes(instructions, edge, existing, i),
        kern: kern_goes(instructions, kerns, i),
        product: product_goes(instructions, existing, i),
        tag: tag_goes(instructions, i),
    }
}
