// How many bytes a reply has, counted no further than 65,537: 62 a P, 26 an O or an X, 14 the W, 74 a T.
ghost use Rattle.std.specs.Prelude.{◌≡◌, List, ◌+◌, ◌*◌, ◌<◌, ◌≤◌, ℤ, length};
ghost use Rattle.words.specs.Words.{number_of};
ghost use Rattle.columns.specs.Replying.{reply_bytes};
ghost use Rattle.text_reply.specs.Sizes.{capped_size, table_bytes};

use words::i32s::word_at;

// So many lines of a size after so many bytes.
fn with_lines(size: usize, count: usize, each: usize) -> usize
    requires { (size ≤ 65537) × (0 < each) × (each ≤ 74) }
    ensures { result ≡ capped_size (size + count * each) }
{
    if 65536 < count {
        return 65537;
    }
    let sum = size + count * each;
    if sum < 65537 { sum } else { 65537 }
}

// The bytes of every pair and its ops.
fn table_size(pairs: &[i32]) -> usize
    ensures { (ops : List ℤ) → result ≡ capped_size (length (table_bytes pairs.now ops)) }
{
    let mut size = 0;
    for k in 0..pairs.len() / 6 {
        size += 62 + 26 * (word_at(pairs, 6 * k + 5) as usize);
        if 65536 < size {
            return 65537;
        }
    }
    size
}

// The bytes of a whole reply; the word's length is given by its 32 bits.
pub(crate) fn reply_size(pairs: &[i32], loops: &[i32], letters: u32, items: &[i32]) -> usize
    ensures { (ops : List ℤ) →
        result ≡ capped_size
        (length
        (reply_bytes pairs.now ops loops.now (number_of letters) items.now)) }
{
    let size = with_lines(table_size(pairs), loops.len() / 2, 26);
    if letters < 2147483648 {
        return with_lines(with_lines(size, 1, 14), items.len() / 6, 74);
    }
    size
}
