ghost use Rattle.c_states.specs.States.{options_of};
ghost use Rattle.font_runs.specs.Requests.{lending, ask_font, start_word};
ghost use Rattle.c_font_runs.specs.RunLists.{run_read};
ghost use Rattle.c_font_requests.specs.Told.{TellsRun};

// A request for the font of this number. 4 for its boundary character, 7 for its table or the run; refused, the run
// stays as it was, and what it asks for.
#[unsafe(no_mangle)]
pub extern "C" fn ligkern_ask_font(
    number: u32,
    pairs: &[i32],
    ops: &[i32],
    boundary: i32,
    run: &mut [u64],
) -> u32
    ensures { TellsRun (ask_font number (lending pairs.now ops.now boundary)
        (run_read run.old)) run.old result run.new }
{
    c_font_requests::ligkern_ask_font(number, pairs, ops, boundary, run)
}

// The start of a word: on the font asked for, which is then in force; else on the one in force. Begin's numbers, and 7
// for the run. With a font asked for, neither table nor boundary character of the one in force is read.
#[unsafe(no_mangle)]
pub extern "C" fn ligkern_start_word(
    pairs: &[i32],
    ops: &[i32],
    boundary: i32,
    asked_pairs: &[i32],
    asked_ops: &[i32],
    asked_boundary: i32,
    word: &[u32],
    disable_left_boundary: bool,
    right_boundary_override: i32,
    run: &mut [u64],
) -> u32
    ensures { TellsRun (start_word (lending pairs.now ops.now boundary)
        (lending asked_pairs.now asked_ops.now asked_boundary) word.now
        (options_of disable_left_boundary right_boundary_override) (run_read run.old))
        run.old result run.new }
{
    c_font_requests::ligkern_start_word(
        pairs,
        ops,
        boundary,
        asked_pairs,
        asked_ops,
        asked_boundary,
        word,
        disable_left_boundary,
        right_boundary_override,
        run,
    )
}
