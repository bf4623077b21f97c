// A set of indices: a request and an answer list them, the port has a byte for each instruction, which is not 0 where
// the index is of the set.
ghost use Rattle.std.specs.Prelude.{◌≡◌, ◌≤◌, length};
ghost use Rattle.test_requests.specs.Requests.{marked};

use crate::answer::put_count;

// The byte of each listed index becomes 1.
pub fn mark(listed: &[i32], marks: &mut [u8])
    ensures { marks.new ≡ marked (length listed.now) listed.now
        marks.old }
{
    for i in 0..listed.len() {
        words::slices::put_item(marks, words::i32s::word_at(listed, i) as usize, 1);
    }
}

// An index whose byte is not 0.
fn put_if_set(out: &mut [i32], at: usize, mark: u8, i: usize) -> usize
    ensures { (at ≤ result) × (at ≤ length out.old → result ≤ length out.new) }
{
    if mark == 0 {
        return at;
    }
    put_count(out, at, i)
}

// The indices of the set, ascending.
fn put_marked(out: &mut [i32], at: usize, marks: &[u8]) -> usize
    ensures { (at ≤ result) × (at ≤ length out.old → result ≤ length out.new) }
{
    let mut next = at;
    for (i, mark) in marks.iter().enumerate() {
        next = put_if_set(out, next, *mark, i);
    }
    next
}

// The set as a list: how many indices, and these.
pub fn put_set(out: &mut [i32], at: usize, marks: &[u8]) -> usize
    ensures { at ≤ length out.old → (at ≤ result) × (result ≤ length out.new) }
{
    let from = put_count(out, at, 0);
    let to = put_marked(out, from, marks);
    put_count(out, at, to - from);
    to
}
