// The items of a next short word, six numbers each as a T line has them (R439). The function is total.
#![tactic(auto)]

ghost use Rattle.std.specs.Prelude.{length};
ghost use Rattle.word_set.specs.Writing.{Tells};
ghost use Rattle.short_word_items.specs.NextItems.{next_word_items};

use captions::RunOptions;
use lang::Written;
use word_set::{set_fresh, set_word};

// The items of a word with the left boundary and no override: the first of a listing has the table checked whole, and
// every other as much of it as its steps read.
pub fn set_items(
    pairs: &[i32],
    ops: &[i32],
    boundary: i32,
    first: bool,
    word: &[u32],
    items: &mut [i32],
) -> Written
    ensures { Tells
        (next_word_items first pairs.now ops.now boundary word.now
        (length items.old)) items.old result items.new }
{
    let options = RunOptions {
        disable_left_boundary: false,
        right_boundary_override: -1,
    };
    if first {
        return set_word(pairs, ops, boundary, word, options, items);
    }
    set_fresh(pairs, ops, boundary, word, options, items)
}
