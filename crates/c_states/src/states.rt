// The state of a run as nine numbers of a list: written there, and read again. Each function is the definition of its
// name in specs/States.antt.
ghost use Rattle.std.specs.Prelude.{◌≡◌, ◌≤◌, length, get_or};
ghost use Rattle.captions.specs.Replies.{next_kind, next_code, consumes_number};
ghost use Rattle.c_states.specs.States.{flag_bit, PutsState, next_left_of, consumes_of, flag_of, is_state, state_at};
ghost use Rattle.c_states.specs.States.{state_read, or_outside};

use crate::numbers::put_nine;
use captions::{Consumes, NextLeft, State};

fn next_kind(next: NextLeft) -> u64
    ensures { result ≡ next_kind next }
{
    match next {
        NextLeft::Boundary => 0,
        NextLeft::Char(_) => 1,
        NextLeft::Lig(_) => 2,
        NextLeft::FinalLig(_) => 3,
        NextLeft::None => 4,
    }
}

fn next_code(next: NextLeft) -> u32
    ensures { result ≡ next_code next }
{
    match next {
        NextLeft::Boundary => 0,
        NextLeft::Char(c) => c,
        NextLeft::Lig(c) => c,
        NextLeft::FinalLig(c) => c,
        NextLeft::None => 0,
    }
}

fn consumes_number(consumes: Consumes) -> u64
    ensures { result ≡ consumes_number consumes }
{
    match consumes {
        Consumes::Nothing => 0,
        Consumes::Letter => 1,
        Consumes::Boundary => 2,
    }
}

// 1 where a flag is set.
pub fn bit(flag: bool) -> u64
    ensures { result ≡ flag_bit flag }
{
    if flag { 1 } else { 0 }
}

// The nine numbers of a state at the front of a list; 15 where it has no room for them.
pub fn put_state(list: &mut [u64], s: State) -> u32
    ensures { PutsState s list.old result list.new }
{
    if list.len() < 9 {
        return 15;
    }
    let next = s.next_left;
    let consumes = s.consumes_left;
    let kind = next_kind(next);
    let code = next_code(next);
    put_nine(
        list,
        kind,
        code as u64,
        s.op as u64,
        s.ops as u64,
        s.read as u64,
        s.given as u64,
        s.pending as u64,
        bit(s.pending_boundary),
        consumes_number(consumes),
    );
    0
}

// What is next, by its kind and its code.
fn next_of(kind: u64, code: u32) -> NextLeft
    ensures { result ≡ next_left_of kind code }
{
    match kind {
        0 => NextLeft::Boundary,
        1 => NextLeft::Char(code),
        2 => NextLeft::Lig(code),
        3 => NextLeft::FinalLig(code),
        _ => NextLeft::None,
    }
}

fn consumes_of(n: u64) -> Consumes
    ensures { result ≡ consumes_of n }
{
    match n {
        0 => Consumes::Nothing,
        1 => Consumes::Letter,
        _ => Consumes::Boundary,
    }
}

pub fn flag_of(n: u64) -> bool
    ensures { result ≡ flag_of n }
{
    match n {
        0 => false,
        _ => true,
    }
}

// Whether the first nine numbers of a list are a state.
pub fn is_state(list: &[u64]) -> bool
    ensures { result ≡ is_state list.now }
{
    if list.len() < 9 {
        return false;
    }
    if 4 < list[0] {
        return false;
    }
    if 4294967295 < list[1] {
        return false;
    }
    if 1 < list[7] {
        return false;
    }
    list[8] <= 2
}

// The state that nine numbers are.
fn state_at(list: &[u64]) -> State
    requires { (9 ≤ length list.now) × (get_or list.now 1 0 ≤ 4294967295) }
    ensures { result ≡ state_at list.now }
{
    let next = next_of(list[0], list[1] as u32);
    let boundary = flag_of(list[7]);
    let consumes = consumes_of(list[8]);
    State {
        next_left: next,
        op: list[2] as usize,
        ops: list[3] as usize,
        read: list[4] as usize,
        given: list[5] as usize,
        pending: list[6] as usize,
        pending_boundary: boundary,
        consumes_left: consumes,
    }
}

// The state that stands at the front of a list; where none stands there, one that points outside every word.
pub fn state_in(list: &[u64]) -> State
    ensures { result ≡ or_outside (state_read list.now) }
{
    if is_state(list) {
        return state_at(list);
    }
    State {
        next_left: NextLeft::None,
        op: 0,
        ops: 0,
        read: 18446744073709551615,
        given: 0,
        pending: 0,
        pending_boundary: false,
        consumes_left: Consumes::Nothing,
    }
}
