// Giving an item: a character, or a ligature with its original.
ghost use Rattle.std.specs.Prelude.{◌≡◌, ◌+◌, ◌≤◌};
ghost use Rattle.captions.specs.Steps.{refused, left_letters, left_boundary, takes_boundary, settled, give_item};
ghost use Rattle.captions.specs.Steps.{give_character, give_ligature};

use captions::{Answer, Consumes, State, Step};

// A refusal, which leaves the state.
pub(crate) fn refused(number: u32, s: State) -> Step
    ensures { result ≡ refused number s }
{
    Step {
        answer: Answer::Refused(number),
        state: s,
    }
}

// Letters that a ligature takes in of its pair's left.
fn left_letters(consumes: Consumes) -> usize
    ensures { result ≡ left_letters consumes }
{
    match consumes {
        Consumes::Nothing => 0,
        Consumes::Letter => 1,
        Consumes::Boundary => 0,
    }
}

// Whether it takes in the left boundary.
fn left_boundary(consumes: Consumes) -> bool
    ensures { result ≡ left_boundary consumes }
{
    match consumes {
        Consumes::Nothing => false,
        Consumes::Letter => false,
        Consumes::Boundary => true,
    }
}

// Whether it takes in the left boundary: its own left, or that of a pending ligature.
fn takes_boundary(s: State) -> bool
    ensures { result ≡ takes_boundary s }
{
    if s.pending_boundary {
        return true;
    }
    let consumes = s.consumes_left;
    left_boundary(consumes)
}

// n letters more are given.
fn settled(n: usize, s: State) -> State
    requires { s.given + n ≤ s.read }
    ensures { result ≡ settled n s }
{
    let next = s.next_left;
    State {
        next_left: next,
        op: s.op,
        ops: s.ops,
        read: s.read,
        given: s.given + n,
        pending: 0,
        pending_boundary: false,
        consumes_left: Consumes::Nothing,
    }
}

// An item whose original is n letters long; 7 where that passes the letters that were read.
fn give_item(answer: Answer, n: usize, s: State) -> Step
    ensures { result ≡ give_item answer n s }
{
    if s.read < n {
        return refused(7, s);
    }
    if s.read - n < s.given {
        return refused(7, s);
    }
    let state = settled(n, s);
    Step {
        answer: answer,
        state: state,
    }
}

// The left as it stands: a character, or the ligature that is pending.
pub fn give_character(c: u32, s: State) -> Step
    ensures { result ≡ give_character c s }
{
    if s.pending == 0 {
        return give_item(Answer::Char(c, s.given), 1, s);
    }
    let answer = Answer::Ligature(c, s.given, s.pending, s.pending_boundary, false);
    give_item(answer, s.pending, s)
}

// A ligature that takes in the left; 7 where what it takes in passes the letters that were read.
pub fn give_ligature(c: u32, right: bool, s: State) -> Step
    ensures { result ≡ give_ligature c right s }
{
    let consumes = s.consumes_left;
    let letters = left_letters(consumes);
    if s.read < s.pending {
        return refused(7, s);
    }
    if s.read - s.pending < letters {
        return refused(7, s);
    }
    let n = s.pending + letters;
    let left = takes_boundary(s);
    give_item(Answer::Ligature(c, s.given, n, left, right), n, s)
}
