// The table of 257 places: at a character's code its entry, at 256 the left boundary's, -1 where there is none.
ghost use Rattle.std.specs.Prelude.{◌≡◌, get_or, pos};
ghost use Rattle.words.specs.Words.{Word};
ghost use Rattle.lang.specs.Entries.{entries_table};

// Filled once from the lent entries, and read by every chain start. An entry whose character is past 255 is passed
// over.
pub fn entries_table(entries: &[i32], left_entry: i32) -> [i32; 257]
    ensures { result ≡ entries_table entries.now left_entry }
{
    let mut table = [-1i32; 257];
    for i in 0..entries.len() / 2 {
        let c = words::i32s::word_at(entries, 2 * i) as usize;
        words::i32s::put_word(&mut table, c, words::i32s::word_at(entries, 2 * i + 1));
    }
    table[256] = left_entry;
    table
}

// The entry at a place of the table, as its 32 bits; 0 past the last place.
pub fn entry_at(table: &[i32; 257], left: usize) -> u32
    ensures { Word (get_or table.now left (pos 0)) result }
{
    words::i32s::word_at(table, left)
}
