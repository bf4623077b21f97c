// A word set whole by an index over its table: what `set_word` of crate word_set does, with the steps of crate
// index_step. Letters that have no pair with the character left of them, and kern pairs, are set by crate
// index_plain_letters.
#![tactic(auto)]

ghost use Rattle.std.specs.Prelude.{◌≡◌, ◌/◌, pos, length, replicate};
ghost use Rattle.captions.specs.Begin.{fresh_state};
ghost use Rattle.word_set.specs.Setting.{items_by};
ghost use Rattle.word_set.specs.Writing.{Tells};
ghost use Rattle.index_step.specs.Indexed.{indexed_step_of};
ghost use Rattle.index_set_word.specs.Whole.{indexed_reply};

use caption_run::begin::{begin, fresh_state};
use captions::{Answer, Begun, RunOptions, State};
use index_plain_letters::set_letters;
use index_step::step_indexed;
use lang::Written;
use word_items::{is_item, put_item, stopped};
use words::slices::zero_all;

// The items from a state on, in a list of zeros.
fn set_from(
    index: &[u64],
    pairs: &[i32],
    ops: &[i32],
    boundary: i32,
    word: &[u32],
    options: RunOptions,
    state: State,
    items: &mut [i32],
) -> Written
    requires { items.old ≡ replicate (length items.old) (pos 0) }
    ensures { Tells
        (items_by
        (indexed_step_of index.now pairs.now ops.now boundary
        word.now options) (length items.old / 6) state) items.old result
        items.new }
{
    let mut s = state;
    let mut k = 0;
    loop {
        let letters = set_letters(index, pairs, ops, boundary, word, options, s, items, k);
        let at = letters.state;
        let count = k + letters.count;
        let stepped = step_indexed(index, pairs, ops, boundary, word, options, at);
        let answer = stepped.answer;
        if !is_item(answer) {
            return stopped(items, count, answer);
        }
        if items.len() / 6 <= count {
            return stopped(items, count, Answer::Refused(15));
        }
        put_item(items, 6 * count, answer);
        s = stepped.state;
        k = count + 1;
    }
}

// The items that a fresh run gives by the index over a table that is taken as it stands, which begin would check: what
// `set_word_indexed` gives where begin refuses nothing.
pub fn set_fresh_indexed(
    index: &[u64],
    pairs: &[i32],
    ops: &[i32],
    boundary: i32,
    word: &[u32],
    options: RunOptions,
    items: &mut [i32],
) -> Written
    ensures { Tells
        (items_by
        (indexed_step_of index.now pairs.now ops.now boundary
        word.now options) (length items.old / 6)
        (fresh_state word.now options)) items.old result items.new }
{
    zero_all(items);
    let fresh = fresh_state(word, options);
    set_from(index, pairs, ops, boundary, word, options, fresh, items)
}

// The items of a word up to its end, six numbers each as a T line has them, with zeros after them. Answers how many
// there are. Begin's numbers, then those of the steps, then 15.
pub fn set_word_indexed(
    index: &[u64],
    pairs: &[i32],
    ops: &[i32],
    boundary: i32,
    word: &[u32],
    options: RunOptions,
    items: &mut [i32],
) -> Written
    ensures { Tells
        (indexed_reply index.now pairs.now ops.now boundary word.now
        options (length items.old)) items.old result items.new }
{
    zero_all(items);
    match begin(pairs, ops, boundary, word, options) {
        Begun::Run(state) => set_from(index, pairs, ops, boundary, word, options, state, items),
        Begun::Refused(n) => Written::Refused(n),
    }
}
