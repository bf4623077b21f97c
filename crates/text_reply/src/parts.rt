// The parts of a reply, each written where the one before it ends: the pair table, the loops, the word and its items.
ghost use Rattle.std.specs.Prelude.{◌≡◌, ◌≤◌, length};
ghost use Rattle.std.proofs.lemmas.List.Edits.{sets};
ghost use Rattle.words.specs.Words.{number_of};
ghost use Rattle.columns.specs.Replying.{word_lines, bytes_of, reply_bytes};
ghost use Rattle.text_lines.specs.Writing.{HasRoom, Puts};
ghost use Rattle.text_reply.specs.Sizes.{table_bytes};

use text_lines::{put_lines, put_pair};
use words::i32s::word_at;
use words::number_of;

// P and O: every pair with its ops, from a place on. Answers the place after them.
fn put_table(pairs: &[i32], ops: &[i32], out: &mut [u8], at: usize) -> usize
    requires { HasRoom (table_bytes pairs.now ops.now) out.old at }
    ensures { Puts (table_bytes pairs.now ops.now) out.old at result
        out.new }
{
    let mut next = at;
    for k in 0..pairs.len() / 6 {
        next = put_pair(pairs, k, out, next);
        let first = word_at(pairs, 6 * k + 4) as usize;
        let count = word_at(pairs, 6 * k + 5) as usize;
        next = put_lines(79, ops, first, count, 2, out, next);
    }
    next
}

// W and T: the word's length, given by its 32 bits, and its items. Nothing where there is no word.
fn put_set_word(letters: u32, items: &[i32], out: &mut [u8], at: usize)
    requires { HasRoom (bytes_of (word_lines (number_of letters) items.now)) out.old at }
    ensures { out.new ≡ sets out.old at
        (bytes_of (word_lines (number_of letters) items.now)) }
{
    if letters < 2147483648 {
        let numbers = [number_of(letters)];
        let next = put_lines(87, &numbers, 0, 1, 1, out, at);
        put_lines(84, items, 0, items.len() / 6, 6, out, next);
    }
}

// Every line of the reply, from the front.
pub(crate) fn put_reply(
    pairs: &[i32],
    ops: &[i32],
    loops: &[i32],
    letters: u32,
    items: &[i32],
    out: &mut [u8],
)
    requires { length (reply_bytes pairs.now ops.now loops.now (number_of letters) items.now)
        ≤ length out.old }
    ensures { out.new ≡ sets out.old 0
        (reply_bytes pairs.now ops.now loops.now (number_of letters)
        items.now) }
{
    let ops_end = put_table(pairs, ops, out, 0);
    let loops_end = put_lines(88, loops, 0, loops.len() / 2, 2, out, ops_end);
    put_set_word(letters, items, out, loops_end);
}
