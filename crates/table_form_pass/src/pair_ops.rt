// The ops of one pair: what every op must hold, and the form that they have with the pair's left and last. Lefts, kinds
// and values are given by their 32 bits.
ghost use Rattle.std.specs.Prelude.{◌≡◌, ◌≤◌, eqb};
ghost use Rattle.captions.specs.Tables.{op_count};
ghost use Rattle.table_form_pass.specs.Parts.{left_by, op_passes, OpsPass, LaterPass, LeftPasses};

use table_find::left_place;
use words::word_of;

// An op is a kern, a ligature, or the left as it stands, which is a character.
fn op_passes(left: u32, kind: u32, value: u32) -> bool
    ensures { result ≡ op_passes left kind value }
{
    if kind == 2 {
        return true;
    }
    if kind == 0 {
        return left <= 255 && value == left;
    }
    kind == 1 && value <= 255
}

// Ops after a pair's first character are kerns and ligatures: they are those of the left boundary, which no character
// equals.
fn later_pass(ops: &[i32], start: usize, end: usize) -> bool
    requires { end ≤ op_count ops.now }
    ensures { LaterPass ops.now start end result }
{
    for i in start..end {
        if !op_passes(4294967295, word_of(ops[2 * i]), word_of(ops[2 * i + 1])) {
            return false;
        }
    }
    true
}

// The ops of a pair: kerns, its first character, and those after it. Where there is no character, a left character
// needs a flagged last.
fn all_pass(ops: &[i32], left: u32, flag: u32, start: usize, end: usize) -> bool
    requires { end ≤ op_count ops.now }
    ensures { OpsPass ops.now (left_by left) (eqb flag 1) start end result }
{
    for i in start..end {
        let kind = word_of(ops[2 * i]);
        if kind != 2 {
            if !op_passes(left, kind, word_of(ops[2 * i + 1])) {
                return false;
            }
            return later_pass(ops, i + 1, end);
        }
    }
    left == 4294967295 || flag == 1
}

// The same, and the left is in range. Most are the left as it stands and a kern, so these come first, without a loop:
// an op that is the left tests it.
pub(crate) fn ops_pass(ops: &[i32], left: u32, flag: u32, start: usize, end: usize) -> bool
    requires { (start ≤ end) × (end ≤ op_count ops.now) }
    ensures { LeftPasses ops.now left (eqb flag 1) start end result }
{
    if end - start == 2 {
        if word_of(ops[2 * start]) == 0 {
            if word_of(ops[2 * (start + 1)]) == 2 {
                return op_passes(left, 0, word_of(ops[2 * start + 1]));
            }
        }
    }
    if 256 < left_place(left) {
        return false;
    }
    all_pass(ops, left, flag, start, end)
}
