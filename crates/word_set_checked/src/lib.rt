// A word set whole over a table that was checked once (R412, R413): begin's numbers but that of the table's form, and
// then the run from the fresh state, in which a step checks what it reads. On a table that `table_refusal` of crate
// table_form takes this is `set_word` of crate word_set.
#![tactic(auto)]

ghost use Rattle.std.specs.Prelude.{◌≡◌, length};
ghost use Rattle.word_set.specs.Writing.{Tells};
ghost use Rattle.word_set_checked.specs.Checked.{checked_refusal, checked_word_reply};

use caption_run::begin::letters_refusal;
use caption_run::edges::{edges_refusal, override_refusal, word_refusal};
use captions::RunOptions;
use lang::Written;
use word_set::set_fresh;
use words::slices::zero_all;

// 4, 6 or 20, the lowest that holds: begin's numbers but that of the table's form.
pub fn checked_refusal(boundary: i32, word: &[u32], options: RunOptions) -> u32
    ensures { result ≡ checked_refusal boundary word.now options }
{
    let edges = edges_refusal(boundary, options);
    if edges != 0 {
        return edges;
    }
    let long = word_refusal(word);
    if long != 0 {
        return long;
    }
    let letters = letters_refusal(word);
    if letters != 0 {
        return letters;
    }
    override_refusal(options.right_boundary_override)
}

// The items of a word up to its end over a table that is taken as it stands, six numbers each as a T line has them,
// with zeros after them. Answers how many there are. 4, 6 or 20, then the numbers of the steps and 15.
pub fn set_checked_word(
    pairs: &[i32],
    ops: &[i32],
    boundary: i32,
    word: &[u32],
    options: RunOptions,
    items: &mut [i32],
) -> Written
    ensures { Tells
        (checked_word_reply pairs.now ops.now boundary word.now options
        (length items.old)) items.old result items.new }
{
    let refusal = checked_refusal(boundary, word, options);
    if refusal != 0 {
        zero_all(items);
        return Written::Refused(refusal);
    }
    set_fresh(pairs, ops, boundary, word, options, items)
}
