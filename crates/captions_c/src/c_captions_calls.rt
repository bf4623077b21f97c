ghost use Rattle.c_captions.specs.Begin.{BeginsRun};
ghost use Rattle.c_states.specs.States.{options_of};
ghost use Rattle.std.specs.Prelude.{length};
ghost use Rattle.word_set.specs.Setting.{set_reply};
ghost use Rattle.c_captions.specs.Whole.{SetsCaption};

// The state of a fresh run, nine numbers with zeros after them. Begin's numbers; 15 where the list has no room for it
// comes before 20.
#[unsafe(no_mangle)]
pub extern "C" fn ligkern_begin(
    pairs: &[i32],
    ops: &[i32],
    boundary: i32,
    word: &[u32],
    disable_left_boundary: bool,
    right_boundary_override: i32,
    state: &mut [u64],
) -> u32
    ensures { BeginsRun pairs.now ops.now boundary word.now
        (options_of disable_left_boundary right_boundary_override) state.old result
        state.new }
{
    c_captions::runs::ligkern_begin(
        pairs,
        ops,
        boundary,
        word,
        disable_left_boundary,
        right_boundary_override,
        state,
    )
}

// The items of a word up to its end, six numbers each, with zeros after them, and their count. set_word's numbers; 15
// where the count has no room comes before 20.
#[unsafe(no_mangle)]
pub extern "C" fn ligkern_set_word(
    pairs: &[i32],
    ops: &[i32],
    boundary: i32,
    word: &[u32],
    disable_left_boundary: bool,
    right_boundary_override: i32,
    items: &mut [i32],
    count: &mut [u64],
) -> u32
    ensures { SetsCaption
        (set_reply pairs.now ops.now boundary word.now
        (options_of disable_left_boundary right_boundary_override) (length items.old))
        items.old count.old result items.new count.new }
{
    c_captions::whole::ligkern_set_word(
        pairs,
        ops,
        boundary,
        word,
        disable_left_boundary,
        right_boundary_override,
        items,
        count,
    )
}
