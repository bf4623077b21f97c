// Files among the numbers of a request or an answer: each byte a number.
ghost use Rattle.std.specs.Prelude.{◌≡◌, map, ◌≤◌, pos};
ghost use Rattle.std.proofs.lemmas.List.Edits.{sets};

use crate::rooms::number_room;
use crate::runs::unroll;
use test_requests::request::part;
use words::i32s::{put_word, word_at};
use words::slices::put_item;

// Numbers as bytes.
fn narrow(list: &[i32], bytes: &mut [u8]) {
    for i in 0..list.len() {
        put_item(bytes, i, (word_at(list, i) % 256) as u8);
    }
}

// Bytes as numbers, in front; what there is no room for is left off.
pub fn widen(bytes: &[u8], list: &mut [i32])
    ensures { list.new ≡ sets list.old 0 (map pos bytes.now) }
{
    for (i, b) in bytes.iter().enumerate() {
        put_word(list, i, *b as u32);
    }
}

// The bytes whose runs these are. How many there are: no more than number_room has places.
pub fn unroll_bytes(runs: &[i32], bytes: &mut [u8]) -> usize
    ensures { result ≤ 131080 }
{
    let mut list = number_room();
    let n = unroll(runs, &mut list);
    narrow(part(&list, 0, n), bytes);
    n
}
