ghost use Rattle.std.specs.Prelude.{[], ◌∷◌, length};
ghost use Rattle.short_words.specs.NextWords.{next_short_word, next_found};
ghost use Rattle.short_word_set.specs.SetNext.{set_next_reply};
ghost use Rattle.c_words.specs.Words.{TellsNext};

// The word after a word over a set, its letters in four places, and its items, six numbers each, all with zeros after
// them. Tells in `values` 1, or 0 at the end, the word's length and how many items. set_next's numbers; 15 where `next`
// or `values` has no room comes before 27 and holds at the end too.
#[unsafe(no_mangle)]
pub extern "C" fn ligkern_next_word(
    from_0: u64,
    from_64: u64,
    from_128: u64,
    from_192: u64,
    pairs: &[i32],
    ops: &[i32],
    boundary: i32,
    word: &[u32],
    next: &mut [u32],
    items: &mut [i32],
    values: &mut [u64],
) -> u32
    ensures { TellsNext
        (set_next_reply (from_0 ∷ from_64 ∷ from_128 ∷ from_192 ∷ []) pairs.now
        ops.now boundary word.now (length items.old))
        (next_found
        (next_short_word (from_0 ∷ from_64 ∷ from_128 ∷ from_192 ∷ []) word.now))
        next.old items.old values.old result next.new items.new
        values.new }
{
    c_words::ligkern_next_word(
        from_0, from_64, from_128, from_192, pairs, ops, boundary, word, next, items, values,
    )
}
