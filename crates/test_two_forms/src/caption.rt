// A word in the font, set by a reader that keeps it and by steps. The font has 8 pairs with a rule, 11 ops and no loop,
// and the lists have room for 16 of each.
ghost use Rattle.std.specs.Prelude.{◌≡◌, length};

use crate::{font, print};
use caption_run::begin::begin;
use caption_run::steps::step;
use caption_run_iter::{next, run_iter};
use captions::{Begun, RunOptions, State};
use compile::compile;
use fonts::Compiled;
use test_requests::request::part;

// Six numbers a pair.
fn table() -> [i32; 96]
    ensures { 96 ≡ length result }
{
    [0; 96]
}

// Two numbers an op or a loop.
fn list() -> [i32; 32]
    ensures { 32 ≡ length result }
{
    [0; 32]
}

// Sixteen numbers a pair with a rule.
fn rows() -> [u32; 256]
    ensures { 256 ≡ length result }
{
    [0; 256]
}

// l f ! f f i x f
fn word() -> [u32; 8] {
    [108, 102, 33, 102, 102, 105, 120, 102]
}

// With the left boundary, and no override.
fn options() -> RunOptions {
    RunOptions {
        disable_left_boundary: false,
        right_boundary_override: -1,
    }
}

// By a reader that is made for the word: `next` until the end, at most `most` times.
fn by_reader(
    rt: &impl Print,
    pairs: &[i32],
    ops: &[i32],
    boundary: i32,
    word: &[u32],
    options: RunOptions,
    state: State,
    most: usize,
) {
    let mut reader = run_iter(word, state);
    let mut left = most;
    while 0 < left {
        left = print::item(rt, next(&mut reader, pairs, ops, boundary, options), left);
    }
}

// By steps, each from the state that the last one left.
fn by_steps(
    rt: &impl Print,
    pairs: &[i32],
    ops: &[i32],
    boundary: i32,
    word: &[u32],
    options: RunOptions,
    state: State,
    most: usize,
) {
    let mut now = state;
    let mut left = most;
    while 0 < left {
        let given = step(pairs, ops, boundary, word, options, now);
        let on = given.state;
        now = on;
        let answer = given.answer;
        left = print::item(rt, answer, left);
    }
}

// Both ways, from the state of a fresh run.
fn set(rt: &impl Print, pairs: &[i32], ops: &[i32], boundary: i32, word: &[u32], state: State) {
    print::text(rt, b"reader:");
    by_reader(rt, pairs, ops, boundary, word, options(), state, 64);
    print::text(rt, b"steps:");
    by_steps(rt, pairs, ops, boundary, word, options(), state, 64);
}

fn begun(rt: &impl Print, pairs: &[i32], ops: &[i32], boundary: i32, word: &[u32]) {
    match begin(pairs, ops, boundary, word, options()) {
        Begun::Run(state) => set(rt, pairs, ops, boundary, word, state),
        Begun::Refused(n) => print::refused(rt, n),
    }
}

fn compiled(pairs: &mut [i32], ops: &mut [i32]) -> Compiled {
    let mut program = [0i32; 24];
    let mut loops = list();
    let mut work = rows();
    font::put_numbers(&mut program);
    compile(
        &program,
        &font::kerns(),
        &font::entries(),
        font::BOUNDARY,
        font::LEFT_ENTRY,
        font::DESIGN_SIZE,
        0,
        0,
        pairs,
        ops,
        &mut loops,
        &mut work,
    )
}

pub(crate) fn both(rt: &impl Print) {
    let mut pairs = table();
    let mut ops = list();
    match compiled(&mut pairs, &mut ops) {
        Compiled::Tables(p, o, _) => begun(
            rt,
            part(&pairs, 0, p % 4294967296 * 6),
            part(&ops, 0, o % 4294967296 * 2),
            font::BOUNDARY,
            &word(),
        ),
        Compiled::Refused(n) => print::refused(rt, n),
    }
}
