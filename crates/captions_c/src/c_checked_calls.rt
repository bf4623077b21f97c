ghost use Rattle.std.specs.Prelude.{◌≡◌, length};
ghost use Rattle.captions.specs.Form.{table_refusal};
ghost use Rattle.word_set_checked.specs.Checked.{checked_word_reply};
ghost use Rattle.c_states.specs.States.{options_of};
ghost use Rattle.c_captions.specs.Whole.{SetsCaption};

// The form of a table: 0, or 7 where begin would find it wrong.
#[unsafe(no_mangle)]
pub extern "C" fn ligkern_check_table(pairs: &[i32], ops: &[i32]) -> u32
    ensures { result ≡ table_refusal pairs.now ops.now }
{
    c_checked::form::ligkern_check_table(pairs, ops)
}

// The items of a word up to its end over a table that was checked, six numbers each, with zeros after them, and their
// count. set_checked_word's numbers; 15 where the count has no room comes before 20.
#[unsafe(no_mangle)]
pub extern "C" fn ligkern_set_checked_word(
    pairs: &[i32],
    ops: &[i32],
    boundary: i32,
    word: &[u32],
    disable_left_boundary: bool,
    right_boundary_override: i32,
    items: &mut [i32],
    count: &mut [u64],
) -> u32
    ensures { SetsCaption
        (checked_word_reply pairs.now ops.now boundary word.now
        (options_of disable_left_boundary right_boundary_override) (length items.old))
        items.old count.old result items.new count.new }
{
    c_checked::whole::ligkern_set_checked_word(
        pairs,
        ops,
        boundary,
        word,
        disable_left_boundary,
        right_boundary_override,
        items,
        count,
    )
}
