ghost use Rattle.c_states.specs.States.{options_of};
ghost use Rattle.font_runs.specs.Requests.{lending};
ghost use Rattle.c_font_step_any.specs.FontSteps.{font_step_in, TellsStep};

// One step: 1 and the six numbers of its item, or zeros at the end; the next run in place of the last. A refused step
// leaves the run as it was. A step's numbers, 4 for both boundary characters while a font is asked for, and 7 for
// numbers that are no run; 15 where the item has no room comes before 20.
#[unsafe(no_mangle)]
pub extern "C" fn ligkern_font_step(
    pairs: &[i32],
    ops: &[i32],
    boundary: i32,
    asked_pairs: &[i32],
    asked_ops: &[i32],
    asked_boundary: i32,
    word: &[u32],
    disable_left_boundary: bool,
    right_boundary_override: i32,
    run: &mut [u64],
    item: &mut [i32],
) -> u32
    ensures { TellsStep (font_step_in (lending pairs.now ops.now boundary)
        (lending asked_pairs.now asked_ops.now asked_boundary) word.now
        (options_of disable_left_boundary right_boundary_override) run.old) run.old
        item.old result run.new item.new }
{
    c_font_steps::ligkern_font_step(
        pairs,
        ops,
        boundary,
        asked_pairs,
        asked_ops,
        asked_boundary,
        word,
        disable_left_boundary,
        right_boundary_override,
        run,
        item,
    )
}
