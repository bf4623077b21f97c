// The turns of a step, after `RunIter::next` of ligkern/mod.rs, whose call of itself is here a turn of the loop. Each
// function is the definition of the same name in captions/specs/Steps.antt, or in specs/Turns.antt.
//   check  that the state points inside, and that the right item is a letter
//   left   the left of a pair        turn   looking a left up
#![tactic(auto)]

ghost use Rattle.std.specs.Prelude.{◌≡◌, true, suc, ◌-◌, length};
ghost use Rattle.words.specs.Words.{number_of};
ghost use Rattle.captions.specs.Tables.{op_count};
ghost use Rattle.captions.specs.Steps.{give_ligature, with_nothing_next, or_boundary, turn, run_on, ran_from};
ghost use Rattle.captions.specs.Steps as turned;
ghost use Rattle.step_turns.specs.Turns.{turn_next, turn_once, Within};

mod check;
mod left;
mod turn;

use captions::{Answer, NextLeft, State, Step, Turned};
use check::{placed, right_fits};
use step_items::give::give_ligature;
use step_items::op::read_op;
use turn::{ends, turn};

// The state with nothing next.
fn with_nothing_next(s: State) -> State
    ensures { result ≡ with_nothing_next s }
{
    let consumes = s.consumes_left;
    State {
        next_left: NextLeft::None,
        op: s.op,
        ops: s.ops,
        read: s.read,
        given: s.given,
        pending: s.pending,
        pending_boundary: s.pending_boundary,
        consumes_left: consumes,
    }
}

// A last ligature, given as it stands.
fn give_last(c: u32, s: State) -> Turned
    ensures { result ≡ Turned.Gives (give_ligature c true (with_nothing_next s)) }
{
    let after = with_nothing_next(s);
    let given = give_ligature(c, true, after);
    Turned::Gives(given)
}

// No ops are to be given: a last ligature is given as it stands, and a left is looked up.
fn turn_next(pairs: &[i32], ops: &[i32], right: u32, word: &[u32], s: State) -> Turned
    requires { Within (length word.now) (op_count ops.now) s }
    ensures { result ≡ turn_next
        (turn pairs.now ops.now (or_boundary (number_of right)) word.now) s
        s.next_left }
{
    let next = s.next_left;
    match next {
        NextLeft::FinalLig(c) => give_last(c, s),
        NextLeft::None => ends(s),
        _ => turn(pairs, ops, right, word, next, s),
    }
}

// One turn of the loop.
fn turn_once(pairs: &[i32], ops: &[i32], right: u32, word: &[u32], s: State) -> Turned
    requires { Within (length word.now) (op_count ops.now) s }
    ensures { result ≡ turn_once ops.now
        (turn pairs.now ops.now (or_boundary (number_of right)) word.now) s }
{
    if s.ops == 0 {
        turn_next(pairs, ops, right, word, s)
    } else {
        let given = read_op(ops, s);
        Turned::Gives(given)
    }
}

// Turns until one answers: one letter a turn, and a turn for the right item.
fn run_on(pairs: &[i32], ops: &[i32], right: u32, word: &[u32], s: State) -> Step
    requires { Within (length word.now) (op_count ops.now) s }
    ensures { result ≡ run_on ops.now
        (turn pairs.now ops.now (or_boundary (number_of right)) word.now)
        (suc (length word.now - s.read)) s }
{
    let mut t = s;
    loop {
        match turn_once(pairs, ops, right, word, t) {
            Turned::Gives(given) => {
                return given;
            }
            Turned::Goes(next) => {
                t = next;
            }
        }
    }
}

// A refusal, which leaves the state.
fn refused(number: u32, s: State) -> Step
    ensures { result ≡ turned.refused number s }
{
    Step {
        answer: Answer::Refused(number),
        state: s,
    }
}

// The step from a state that points inside, with a right item that is a letter; else 7 or 20.
pub fn run(pairs: &[i32], ops: &[i32], right: u32, word: &[u32], s: State) -> Step
    ensures { result ≡ ran_from pairs.now ops.now (or_boundary (number_of right))
        word.now s }
{
    if !placed(ops, word, s) {
        return refused(7, s);
    }
    if !right_fits(right) {
        return refused(20, s);
    }
    run_on(pairs, ops, right, word, s)
}
