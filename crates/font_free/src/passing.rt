// The one turn that is passed before a state is tested, that of a left boundary whose entry gives nothing; and a state
// restarted. `passed` is the definition of its name in font_runs/specs/Passing.antt.
ghost use Rattle.std.specs.Prelude.{◌≡◌, true, ◌<◌};
ghost use Rattle.std.proofs.Math.Option.{some};
ghost use Rattle.lang.specs.Every.{both};
ghost use Rattle.captions.specs.declared.NextLeft.TheVariants as next;
ghost use Rattle.captions.specs.Tables.{record_fits};
ghost use Rattle.captions.specs.Steps.{entered_at, gives_nothing};
ghost use Rattle.font_runs.specs.Changes as changes;
ghost use Rattle.font_runs.specs.Requests.{lending};
ghost use Rattle.font_runs.specs.Passing.{passed_by, passed_left};
ghost use Rattle.font_runs.specs.Passing as passing;

use captions::{Consumes, NextLeft, State};
use table_find::find;
use table_numbers::{number_at, record_fits};

// Pair k fits, and gives nothing: no ops, and an unflagged last.
fn gives_nothing(pairs: &[i32], ops: &[i32], k: usize) -> bool
    ensures { result ≡ both (record_fits pairs.now ops.now k)
        (gives_nothing pairs.now k) }
{
    if !record_fits(pairs, ops, k) {
        return false;
    }
    if number_at(pairs, k, 5) != 0 {
        return false;
    }
    number_at(pairs, k, 3) != 1
}

// The state past pair k, which gives nothing.
fn past_entry(pairs: &[i32], s: State, k: usize) -> State
    requires { (s.read < 9223372036854775808) × (gives_nothing pairs.now k ≡ true) }
    ensures { result ≡ entered_at pairs.now next.Boundary true s k }
{
    let code = number_at(pairs, k, 2);
    let op = number_at(pairs, k, 4) as usize;
    State {
        next_left: NextLeft::Char(code),
        op: op,
        ops: 0,
        read: s.read + 1,
        given: s.given,
        pending: s.pending,
        pending_boundary: s.pending_boundary,
        consumes_left: Consumes::Boundary,
    }
}

// Past pair k, where it fits and gives nothing.
fn past_pair(pairs: &[i32], ops: &[i32], s: State, k: usize) -> State
    requires { s.read < 9223372036854775808 }
    ensures { result ≡ passed_by pairs.now ops.now s (some k) }
{
    if gives_nothing(pairs, ops, k) {
        return past_entry(pairs, s, k);
    }
    s
}

// Past the left boundary, by its pair with the next letter.
fn past_boundary(pairs: &[i32], ops: &[i32], word: &[u32], s: State) -> State
    ensures { result ≡ passed_left pairs.now ops.now word.now s
        next.Boundary }
{
    let read = s.read;
    if word.len() <= read {
        return s;
    }
    let y = word[read];
    if 255 < y {
        return s;
    }
    match find(pairs, 0, y) {
        Some(k) => past_pair(pairs, ops, s, k),
        None => s,
    }
}

// The state after that turn, where it stands; else the state itself.
pub fn passed(pairs: &[i32], ops: &[i32], boundary: i32, word: &[u32], s: State) -> State
    ensures { result ≡ passing.passed (lending pairs.now ops.now boundary)
        word.now s }
{
    if s.ops != 0 {
        return s;
    }
    let left = s.next_left;
    match left {
        NextLeft::Boundary => past_boundary(pairs, ops, word, s),
        NextLeft::Char(_) => s,
        NextLeft::Lig(_) => s,
        NextLeft::FinalLig(_) => s,
        NextLeft::None => s,
    }
}

// The same next left, letters read and letters given, and all else as fresh.
pub fn restarted(s: State) -> State
    ensures { result ≡ changes.restarted s }
{
    let left = s.next_left;
    let given = s.given;
    State {
        next_left: left,
        op: 0,
        ops: 0,
        read: s.read,
        given: given,
        pending: 0,
        pending_boundary: false,
        consumes_left: Consumes::Nothing,
    }
}
