// Asking for another font, and the start of a word, on a run that knows its font. Only these two calls read a table
// whole. Each function is the definition of its name in font_runs/specs/Requests.antt.
#![tactic(auto)]

ghost use Rattle.std.specs.Prelude.{◌≡◌};
ghost use Rattle.font_runs.specs.Requests.{lending, requested_by, request_refusal, ask_font, starting, start_refusal};
ghost use Rattle.font_runs.specs.Requests.{start_word};

use caption_run::begin::begin;
use captions::{Begun, RunOptions};
use font_runs::{FontRun, Requested};
use program_checks::absent_refusal;
use table_form::table_refusal;

// 4 for the boundary character, 7 for a table that is not of the form.
fn ask_refusal(pairs: &[i32], ops: &[i32], boundary: i32) -> u32
    ensures { result ≡ request_refusal (lending pairs.now ops.now boundary) }
{
    let edge = absent_refusal(255, boundary);
    if edge != 0 {
        return edge;
    }
    table_refusal(pairs, ops)
}

// A request for the font of this number. Taken, it stands in place of any other; refused, the run goes on as it was.
pub fn ask_font(number: u32, pairs: &[i32], ops: &[i32], boundary: i32, run: FontRun) -> Requested
    ensures { result ≡ ask_font number (lending pairs.now ops.now boundary) run }
{
    let refusal = ask_refusal(pairs, ops, boundary);
    if refusal != 0 {
        return Requested::Refused(refusal);
    }
    let state = run.state;
    Requested::Taken(FontRun {
        state: state,
        font: run.font,
        asked: Some(number),
    })
}

// A word begun in the font of this number, with nothing asked for.
fn start_in(
    number: u32,
    pairs: &[i32],
    ops: &[i32],
    boundary: i32,
    word: &[u32],
    options: RunOptions,
) -> Requested
    ensures { result ≡ requested_by
        (start_refusal (lending pairs.now ops.now boundary) word.now options)
        (starting number word.now options) }
{
    match begin(pairs, ops, boundary, word, options) {
        Begun::Run(state) => Requested::Taken(FontRun {
            state: state,
            font: number,
            asked: None,
        }),
        Begun::Refused(n) => Requested::Refused(n),
    }
}

// The start of a word: on the font asked for, which is then in force; else on the one in force. Refused, the run and
// its request go on as they were.
pub fn start_word(
    pairs: &[i32],
    ops: &[i32],
    boundary: i32,
    asked_pairs: &[i32],
    asked_ops: &[i32],
    asked_boundary: i32,
    word: &[u32],
    options: RunOptions,
    run: FontRun,
) -> Requested
    ensures { result ≡ start_word (lending pairs.now ops.now boundary)
        (lending asked_pairs.now asked_ops.now asked_boundary) word.now
        options run }
{
    let asked = run.asked;
    match asked {
        None => start_in(run.font, pairs, ops, boundary, word, options),
        Some(n) => start_in(n, asked_pairs, asked_ops, asked_boundary, word, options),
    }
}
