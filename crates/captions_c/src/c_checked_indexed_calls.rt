ghost use Rattle.std.specs.Prelude.{length};
ghost use Rattle.index_set_checked.specs.Checked.{checked_indexed_reply};
ghost use Rattle.c_states.specs.States.{options_of};
ghost use Rattle.c_captions.specs.Whole.{SetsCaption};

// The items of a word up to its end by an index over a table that was checked, six numbers each, with zeros after them,
// and their count. set_checked_word_indexed's numbers; 15 where the count has no room comes before 20.
#[unsafe(no_mangle)]
pub extern "C" fn ligkern_set_checked_word_indexed(
    index: &[u64],
    pairs: &[i32],
    ops: &[i32],
    boundary: i32,
    word: &[u32],
    disable_left_boundary: bool,
    right_boundary_override: i32,
    items: &mut [i32],
    count: &mut [u64],
) -> u32
    ensures { SetsCaption
        (checked_indexed_reply index.now pairs.now ops.now boundary
        word.now (options_of disable_left_boundary right_boundary_override)
        (length items.old)) items.old count.old result items.new
        count.new }
{
    c_checked_indexed::ligkern_set_checked_word_indexed(
        index,
        pairs,
        ops,
        boundary,
        word,
        disable_left_boundary,
        right_boundary_override,
        items,
        count,
    )
}
