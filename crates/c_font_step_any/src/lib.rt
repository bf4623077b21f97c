// One step of a run that may change its font, whatever is asked for, told into lists (R214): the run in a list of
// twelve numbers (crate c_font_runs), the item in one of seven.
#![tactic(auto)]

ghost use Rattle.std.specs.Prelude.{◌≡◌, ◌≤◌, length};
ghost use Rattle.captions.specs.Replies.{answer_reply};
ghost use Rattle.word_items.specs.ItemLists.{Small};
ghost use Rattle.font_runs.specs.Requests.{lending};
ghost use Rattle.c_font_step_any.specs.FontSteps.{font_step_in, TellsStep};

use c_font_runs::{put_run, run_in};
use c_steps::items::{refusal_of, tell};
use captions::RunOptions;
use font_runs::FontStep;
use font_steps::font_step;
use program_checks::lower_of;
use program_limits::room_refusal;
use words::slices::zero_all;

// A step whatever is asked for, told into both lists.
fn tell_step(run: &mut [u64], item: &mut [i32], stepped: FontStep) -> u32
    requires { Small stepped.answer × ((answer_reply stepped.answer).number ≡ 0 → 12 ≤ length run.old) }
    ensures { TellsStep stepped run.old item.old result run.new
        item.new }
{
    zero_all(item);
    let answer = stepped.answer;
    let number = refusal_of(answer);
    let room = room_refusal(7, item.len());
    let refusal = lower_of(number, room);
    if refusal != 0 {
        return refusal;
    }
    tell(item, answer);
    let after = stepped.run;
    put_run(run, after)
}

// One step from whatever run stands in the list.
pub fn any_step(
    pairs: &[i32],
    ops: &[i32],
    boundary: i32,
    asked_pairs: &[i32],
    asked_ops: &[i32],
    asked_boundary: i32,
    word: &[u32],
    options: RunOptions,
    run: &mut [u64],
    item: &mut [i32],
) -> u32
    ensures { TellsStep (font_step_in (lending pairs.now ops.now boundary)
        (lending asked_pairs.now asked_ops.now asked_boundary) word.now
        options run.old) run.old item.old result run.new
        item.new }
{
    let from = run_in(run);
    let stepped = font_step(
        pairs,
        ops,
        boundary,
        asked_pairs,
        asked_ops,
        asked_boundary,
        word,
        options,
        from,
    );
    tell_step(run, item, stepped)
}
