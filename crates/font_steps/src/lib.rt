// A step of a run that may change its font. With a request waiting the state is tested, past a left boundary whose
// entry gives nothing (the only turn inside a step that can reach another free state: font_runs/specs/Passing); where
// it is free the step is made from it, restarted, in the font asked for; else in the font in force.
#![tactic(auto)]

ghost use Rattle.std.specs.Prelude.{◌≡◌};
ghost use Rattle.lang.specs.Checks.{or_else, absent_refusal};
ghost use Rattle.font_runs.specs.Requests.{lending};
ghost use Rattle.font_runs.specs.Changes.{in_force, in_asked, first_free, changed_by, both_edges, waiting_by};
ghost use Rattle.font_runs.specs.Changes.{font_step};

use caption_run::steps::step;
use captions::{Answer, RunOptions, Step};
use font_free::free::is_free;
use font_free::passing::{passed, restarted};
use font_runs::{FontRun, FontStep};
use program_checks::absent_refusal;

// 4: one of the boundary characters out of range.
fn both_edges(boundary: i32, asked_boundary: i32) -> u32
    ensures { result ≡ or_else (absent_refusal 255 boundary) (absent_refusal 255 asked_boundary) }
{
    let edge = absent_refusal(255, boundary);
    if edge != 0 {
        return edge;
    }
    absent_refusal(255, asked_boundary)
}

// A step in the font in force: what was asked for waits on.
fn in_force(run: FontRun, t: Step) -> FontStep
    ensures { result ≡ in_force run t }
{
    let answer = t.answer;
    let state = t.state;
    let asked = run.asked;
    let after = FontRun {
        state: state,
        font: run.font,
        asked: asked,
    };
    FontStep {
        answer: answer,
        run: after,
    }
}

// A step in the font asked for, which is then in force; a refused one hands the run back.
fn in_asked(run: FontRun, number: u32, t: Step) -> FontStep
    ensures { result ≡ in_asked run number t }
{
    let answer = t.answer;
    let state = t.state;
    let after = FontRun {
        state: state,
        font: number,
        asked: None,
    };
    match answer {
        Answer::Char(_, _) => FontStep {
            answer: answer,
            run: after,
        },
        Answer::Ligature(_, _, _, _, _) => FontStep {
            answer: answer,
            run: after,
        },
        Answer::Kern(_) => FontStep {
            answer: answer,
            run: after,
        },
        Answer::End => FontStep {
            answer: answer,
            run: after,
        },
        Answer::Refused(_) => FontStep {
            answer: answer,
            run: run,
        },
    }
}

// A step with the font of this number asked for.
fn waiting_step(
    pairs: &[i32],
    ops: &[i32],
    boundary: i32,
    asked_pairs: &[i32],
    asked_ops: &[i32],
    asked_boundary: i32,
    word: &[u32],
    options: RunOptions,
    run: FontRun,
    number: u32,
) -> FontStep
    ensures { result ≡ waiting_by (or_else (absent_refusal 255 boundary) (absent_refusal 255 asked_boundary)) run
        (changed_by (lending pairs.now ops.now boundary)
        (lending asked_pairs.now asked_ops.now asked_boundary) word.now
        options run number
        (first_free (lending pairs.now ops.now boundary) word.now options
        run.state)) }
{
    let edges = both_edges(boundary, asked_boundary);
    if edges != 0 {
        return FontStep {
            answer: Answer::Refused(edges),
            run: run,
        };
    }
    let state = run.state;
    let at = passed(pairs, ops, boundary, word, state);
    if is_free(pairs, boundary, word, options, at) {
        let from = restarted(at);
        let changed = step(asked_pairs, asked_ops, asked_boundary, word, options, from);
        return in_asked(run, number, changed);
    }
    let kept = step(pairs, ops, boundary, word, options, state);
    in_force(run, kept)
}

// One step: its answer and the run that it leaves. With nothing asked for the second table is not read.
pub fn font_step(
    pairs: &[i32],
    ops: &[i32],
    boundary: i32,
    asked_pairs: &[i32],
    asked_ops: &[i32],
    asked_boundary: i32,
    word: &[u32],
    options: RunOptions,
    run: FontRun,
) -> FontStep
    ensures { result ≡ font_step (lending pairs.now ops.now boundary)
        (lending asked_pairs.now asked_ops.now asked_boundary) word.now
        options run }
{
    let asked = run.asked;
    match asked {
        None => {
            let state = run.state;
            let kept = step(pairs, ops, boundary, word, options, state);
            in_force(run, kept)
        }
        Some(n) => waiting_step(
            pairs,
            ops,
            boundary,
            asked_pairs,
            asked_ops,
            asked_boundary,
            word,
            options,
            run,
            n,
        ),
    }
}
