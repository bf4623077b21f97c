// A word set whole by an index over a table that was checked once (R412, R414): what `set_checked_word` of crate
// word_set_checked does, with the steps of crate index_step.
#![tactic(auto)]

ghost use Rattle.std.specs.Prelude.{length};
ghost use Rattle.word_set.specs.Writing.{Tells};
ghost use Rattle.index_set_checked.specs.Checked.{checked_indexed_reply};

use captions::RunOptions;
use index_set_word::set_fresh_indexed;
use lang::Written;
use word_set_checked::checked_refusal;
use words::slices::zero_all;

// The items of a word up to its end over a table and an index that are taken as they stand, six numbers each as a T
// line has them, with zeros after them. Answers how many there are. 4, 6 or 20, then the numbers of the steps and 15.
pub fn set_checked_word_indexed(
    index: &[u64],
    pairs: &[i32],
    ops: &[i32],
    boundary: i32,
    word: &[u32],
    options: RunOptions,
    items: &mut [i32],
) -> Written
    ensures { Tells
        (checked_indexed_reply index.now pairs.now ops.now boundary
        word.now options (length items.old)) items.old result
        items.new }
{
    let refusal = checked_refusal(boundary, word, options);
    if refusal != 0 {
        zero_all(items);
        return Written::Refused(refusal);
    }
    set_fresh_indexed(index, pairs, ops, boundary, word, options, items)
}
