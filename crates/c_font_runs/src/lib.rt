// A run that knows its font as twelve numbers of a list: read there, and written. Each function is the definition of
// its name in specs/RunLists.antt.
#![tactic(auto)]

ghost use Rattle.std.specs.Prelude.{◌≡◌, true, get_or};
ghost use Rattle.c_font_runs.specs.RunLists.{asked_flag, asked_number, asked_of, asked_fits, is_run, run_read};
ghost use Rattle.c_font_runs.specs.RunLists.{PutsRun};

use c_states::states::{is_state, put_state, state_in};
use captions::{Consumes, NextLeft, State};
use font_runs::FontRun;

// A number that is read is one of 32 bits.
fn asked_fits(flag: u64, number: u64) -> bool
    ensures { result ≡ asked_fits flag number }
{
    match flag {
        0 => true,
        _ => number <= 4294967295,
    }
}

// Whether the first twelve numbers of a list are a run.
pub fn is_run(list: &[u64]) -> bool
    ensures { result ≡ is_run list.now }
{
    if list.len() < 12 {
        return false;
    }
    if !is_state(list) {
        return false;
    }
    if 4294967295 < list[9] {
        return false;
    }
    if 1 < list[10] {
        return false;
    }
    asked_fits(list[10], list[11])
}

// What is asked for, by the flag.
fn asked_of(flag: u64, number: u32) -> Option<u32>
    ensures { result ≡ asked_of flag number }
{
    match flag {
        0 => None,
        _ => Some(number),
    }
}

// What a run has asked for, where twelve numbers are one.
fn asked_in(list: &[u64]) -> Option<u32>
    requires { is_run list.now ≡ true }
    ensures { result ≡ asked_of (get_or list.now 10 0) (get_or list.now 11 0) }
{
    if list[10] == 0 {
        return None;
    }
    asked_of(list[10], list[11] as u32)
}

// The run at the front of a list; where none stands there, one outside every word with nothing asked for.
pub fn run_in(list: &[u64]) -> FontRun
    ensures { result ≡ run_read list.now }
{
    if is_run(list) {
        let state = state_in(list);
        let asked = asked_in(list);
        return FontRun {
            state: state,
            font: list[9] as u32,
            asked: asked,
        };
    }
    let state = State {
        next_left: NextLeft::None,
        op: 0,
        ops: 0,
        read: 18446744073709551615,
        given: 0,
        pending: 0,
        pending_boundary: false,
        consumes_left: Consumes::Nothing,
    };
    FontRun {
        state: state,
        font: 0,
        asked: None,
    }
}

fn asked_flag(asked: Option<u32>) -> u64
    ensures { result ≡ asked_flag asked }
{
    match asked {
        None => 0,
        Some(_) => 1,
    }
}

fn asked_number(asked: Option<u32>) -> u32
    ensures { result ≡ asked_number asked }
{
    match asked {
        None => 0,
        Some(n) => n,
    }
}

// The twelve numbers of a run at the front of a list; 15 where it has no room for them.
pub fn put_run(list: &mut [u64], run: FontRun) -> u32
    ensures { PutsRun run list.old result list.new }
{
    if list.len() < 12 {
        return 15;
    }
    let state = run.state;
    put_state(list, state);
    let asked = run.asked;
    list[9] = run.font as u64;
    list[10] = asked_flag(asked);
    list[11] = asked_number(asked) as u64;
    0
}
