// One step of a run that may change its font, for a host in C (R214): slices and integers in, the number of a refusal
// out (0 where it is taken). The run stands in a list of twelve numbers (crate c_font_runs). With nothing asked for the
// step is that of `ligkern_step`, on the first nine, and so it is where a font that is asked for is known to wait
// (crate c_font_waits): then the last three numbers stay. Every other step goes by `any_step`.
#![tactic(auto)]

ghost use Rattle.std.specs.Prelude.{◌≡◌};
ghost use Rattle.c_states.specs.States.{options_of};
ghost use Rattle.font_runs.specs.Requests.{lending};
ghost use Rattle.c_font_step_any.specs.FontSteps.{font_step_in, TellsStep, is_idle};

use c_font_runs::is_run;
use c_font_step_any::any_step;
use c_font_waits::is_kept;
use c_steps::ligkern_step;
use captions::RunOptions;

// Twelve numbers that are a run's, with nothing asked for.
fn is_idle(run: &[u64]) -> bool
    ensures { result ≡ is_idle run.now }
{
    if is_run(run) {
        return run[10] == 0;
    }
    false
}

// One step: 1 and the six numbers of its item, or zeros at the end; the next run in place of the last. A refused step
// leaves the run as it was. A step's numbers, 4 for both boundary characters while a font is asked for, and 7 for
// numbers that are no run; 15 where the item has no room comes before 20.
#[unsafe(no_mangle)]
pub extern "C" fn ligkern_font_step(
    pairs: &[i32],
    ops: &[i32],
    boundary: i32,
    asked_pairs: &[i32],
    asked_ops: &[i32],
    asked_boundary: i32,
    word: &[u32],
    disable_left_boundary: bool,
    right_boundary_override: i32,
    run: &mut [u64],
    item: &mut [i32],
) -> u32
    ensures { TellsStep (font_step_in (lending pairs.now ops.now boundary)
        (lending asked_pairs.now asked_ops.now asked_boundary) word.now
        (options_of disable_left_boundary right_boundary_override) run.old) run.old
        item.old result run.new item.new }
{
    let options = RunOptions {
        disable_left_boundary: disable_left_boundary,
        right_boundary_override: right_boundary_override,
    };
    let idle = is_idle(run);
    if !is_kept(idle, pairs, boundary, asked_boundary, word, run) {
        return any_step(
            pairs,
            ops,
            boundary,
            asked_pairs,
            asked_ops,
            asked_boundary,
            word,
            options,
            run,
            item,
        );
    }
    let number = ligkern_step(
        pairs,
        ops,
        boundary,
        word,
        disable_left_boundary,
        right_boundary_override,
        run,
        item,
    );
    if number != 0 {
        return number;
    }
    if idle {
        run[11] = 0;
    }
    0
}
