// Asking for another font, and the start of a word, for a host in C (R214): slices and integers in, the number of a
// refusal out (0 where it is taken). The run stands in a list of twelve numbers (crate c_font_runs).
#![tactic(auto)]

ghost use Rattle.std.specs.Prelude.{◌≡◌};
ghost use Rattle.lang.specs.Checks.{unless};
ghost use Rattle.c_states.specs.States.{options_of};
ghost use Rattle.font_runs.specs.Requests.{lending, ask_font, start_word};
ghost use Rattle.c_font_runs.specs.RunLists.{is_run, run_read};
ghost use Rattle.c_font_requests.specs.Told.{TellsRun, Refuses};

use c_font_runs::{is_run, put_run, run_in};
use captions::RunOptions;
use font_requests::{ask_font, start_word};
use font_runs::Requested;
use program_checks::lower_of;

// 7: numbers that are no run's.
fn run_refusal(run: &[u64]) -> u32
    ensures { result ≡ unless 7 (is_run run.now) }
{
    if is_run(run) { 0 } else { 7 }
}

// The run after a request in the list, or the number of its refusal, 7 where the list has no run.
fn tell_run(run: &mut [u64], requested: Requested) -> u32
    requires { Refuses requested }
    ensures { TellsRun requested run.old result run.new }
{
    let stands = run_refusal(run);
    match requested {
        Requested::Refused(n) => lower_of(n, stands),
        Requested::Taken(after) => {
            if stands != 0 {
                return stands;
            }
            put_run(run, after)
        }
    }
}

// A request for the font of this number. 4 for its boundary character, 7 for its table or the run; refused, the run
// stays as it was, and what it asks for.
#[unsafe(no_mangle)]
pub extern "C" fn ligkern_ask_font(
    number: u32,
    pairs: &[i32],
    ops: &[i32],
    boundary: i32,
    run: &mut [u64],
) -> u32
    ensures { TellsRun (ask_font number (lending pairs.now ops.now boundary)
        (run_read run.old)) run.old result run.new }
{
    let from = run_in(run);
    let requested = ask_font(number, pairs, ops, boundary, from);
    tell_run(run, requested)
}

// The start of a word: on the font asked for, which is then in force; else on the one in force. Begin's numbers, and 7
// for the run. With a font asked for, neither table nor boundary character of the one in force is read.
#[unsafe(no_mangle)]
pub extern "C" fn ligkern_start_word(
    pairs: &[i32],
    ops: &[i32],
    boundary: i32,
    asked_pairs: &[i32],
    asked_ops: &[i32],
    asked_boundary: i32,
    word: &[u32],
    disable_left_boundary: bool,
    right_boundary_override: i32,
    run: &mut [u64],
) -> u32
    ensures { TellsRun (start_word (lending pairs.now ops.now boundary)
        (lending asked_pairs.now asked_ops.now asked_boundary) word.now
        (options_of disable_left_boundary right_boundary_override) (run_read run.old))
        run.old result run.new }
{
    let options = RunOptions {
        disable_left_boundary: disable_left_boundary,
        right_boundary_override: right_boundary_override,
    };
    let from = run_in(run);
    let requested = start_word(
        pairs,
        ops,
        boundary,
        asked_pairs,
        asked_ops,
        asked_boundary,
        word,
        options,
        from,
    );
    tell_run(run, requested)
}
