// Ops: the one that is next, given.
ghost use Rattle.std.specs.Prelude.{◌≡◌, ◌<◌, ◌≤◌};
ghost use Rattle.captions.specs.Tables.{op_count};
ghost use Rattle.captions.specs.Steps.{after_op, is_none, ends_word, give_op, ops_fit, read_op};

use super::give::{give_character, give_ligature, refused};
use captions::{Answer, NextLeft, State, Step};
use table_numbers::{kind_at, op_fits, value_at};
use words::number_of;

// The state after an op that is there; the state itself where no list can have that op.
pub fn after_op(s: State) -> State
    ensures { (s.op < 9223372036854775808 → result ≡ after_op s)
        × (9223372036854775808 ≤ s.op → result ≡ s) }
{
    if 9223372036854775808 <= s.op {
        return s;
    }
    let next = s.next_left;
    let consumes = s.consumes_left;
    let ops = s.ops.saturating_sub(1);
    State {
        next_left: next,
        op: s.op + 1,
        ops: ops,
        read: s.read,
        given: s.given,
        pending: s.pending,
        pending_boundary: s.pending_boundary,
        consumes_left: consumes,
    }
}

// Nothing is next.
fn is_none(next: NextLeft) -> bool
    ensures { result ≡ is_none next }
{
    match next {
        NextLeft::Boundary => false,
        NextLeft::Char(_) => false,
        NextLeft::Lig(_) => false,
        NextLeft::FinalLig(_) => false,
        NextLeft::None => true,
    }
}

// At the word's end nothing or one kern only is still to be given.
fn ends_word(ops: &[i32], s: State) -> bool
    ensures { result ≡ ends_word ops.now s }
{
    let next = s.next_left;
    if !is_none(next) {
        return false;
    }
    if s.ops == 0 {
        return true;
    }
    if s.ops != 1 {
        return false;
    }
    let op = s.op;
    kind_at(ops, op) == 2
}

// The op that is next: a character, a ligature or a kern.
fn give_op(ops: &[i32], s: State) -> Step
    requires { s.op < op_count ops.now }
    ensures { result ≡ give_op ops.now s }
{
    let op = s.op;
    let kind = kind_at(ops, op);
    let value = value_at(ops, op);
    let after = after_op(s);
    if kind == 0 {
        return give_character(value, after);
    }
    if kind == 1 {
        let right = ends_word(ops, after);
        return give_ligature(value, right, after);
    }
    Step {
        answer: Answer::Kern(number_of(value)),
        state: after,
    }
}

// The op that is next and the one after it can be read.
fn ops_fit(ops: &[i32], s: State) -> bool
    ensures { result ≡ ops_fit ops.now s }
{
    let op = s.op;
    if !op_fits(ops, op) {
        return false;
    }
    if s.ops < 2 {
        return true;
    }
    op_fits(ops, op + 1)
}

// The op that is next, where it can be read.
pub fn read_op(ops: &[i32], s: State) -> Step
    ensures { result ≡ read_op ops.now s }
{
    if ops_fit(ops, s) {
        give_op(ops, s)
    } else {
        refused(7, s)
    }
}
