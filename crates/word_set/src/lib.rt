// A word set whole (R131 to R134): a run from its begin to its end, each item as the six numbers of a T line; after the
// loop over what `run_with_options` of ligkern/mod.rs returns.
#![tactic(auto)]

ghost use Rattle.std.specs.Prelude.{◌≡◌, ◌/◌, length, replicate, pos};
ghost use Rattle.captions.specs.Begin.{fresh_state};
ghost use Rattle.captions.specs.Steps.{step_of};
ghost use Rattle.word_set.specs.Setting.{items_from, Sets};
ghost use Rattle.word_set.specs.Writing.{Tells};
ghost use Rattle.word_plain_letters.specs.PlainLetters.{NextPair};

use caption_run::begin::{begin, fresh_state};
use caption_run::steps::kern_step;
use captions::{Answer, Begun, RunOptions, State, Step};
use lang::Written;
use step_quick_op::{is_ready, quick_step};
use word_items::{is_item, put_item, stopped};
use word_plain_letters::give_letters;
use words::slices::zero_all;

// The step from a state in which letters ended, and the pair that stopped them if there is one: its first op at once,
// or a last kern, and else by turns.
fn next_step(
    pairs: &[i32],
    ops: &[i32],
    boundary: i32,
    word: &[u32],
    options: RunOptions,
    s: State,
    pair: usize,
) -> Step
    requires { NextPair pairs.now ops.now boundary word.now options s pair }
    ensures { result ≡ step_of pairs.now ops.now boundary word.now options
        s }
{
    if pairs.len() / 6 <= pair {
        return kern_step(pairs, ops, boundary, word, options, s);
    }
    if !is_ready(pairs, ops, pair) {
        return kern_step(pairs, ops, boundary, word, options, s);
    }
    quick_step(pairs, ops, word, pair, s)
}

// The items from a state on, in a list of zeros: letters as they stand and kern pairs, and then the step that is next,
// again and again.
fn set_from(
    pairs: &[i32],
    ops: &[i32],
    boundary: i32,
    word: &[u32],
    options: RunOptions,
    state: State,
    items: &mut [i32],
) -> Written
    requires { items.old ≡ replicate (length items.old) (pos 0) }
    ensures { Tells
        (items_from pairs.now ops.now boundary word.now options
        (length items.old / 6) state) items.old result items.new }
{
    let mut s = state;
    let mut k = 0;
    loop {
        let letters = give_letters(pairs, ops, boundary, word, options, s, items, k);
        let moved = letters.state;
        k += letters.count;
        let stepped = next_step(pairs, ops, boundary, word, options, moved, letters.pair);
        let answer = stepped.answer;
        if !is_item(answer) {
            return stopped(items, k, answer);
        }
        if items.len() / 6 <= k {
            return stopped(items, k, Answer::Refused(15));
        }
        put_item(items, 6 * k, answer);
        s = stepped.state;
        k += 1;
    }
}

// The items that a fresh run gives over a table that is taken as it stands, which begin would check: what `set_word`
// gives where begin refuses nothing.
pub fn set_fresh(
    pairs: &[i32],
    ops: &[i32],
    boundary: i32,
    word: &[u32],
    options: RunOptions,
    items: &mut [i32],
) -> Written
    ensures { Tells
        (items_from pairs.now ops.now boundary word.now options
        (length items.old / 6) (fresh_state word.now options)) items.old result
        items.new }
{
    zero_all(items);
    let fresh = fresh_state(word, options);
    set_from(pairs, ops, boundary, word, options, fresh, items)
}

// The items of a word up to its end, six numbers each as a T line has them, with zeros after them. Answers how many
// there are. Begin's numbers, then 15.
pub fn set_word(
    pairs: &[i32],
    ops: &[i32],
    boundary: i32,
    word: &[u32],
    options: RunOptions,
    items: &mut [i32],
) -> Written
    ensures { Sets pairs.now ops.now boundary word.now options
        items.old result items.new }
{
    zero_all(items);
    match begin(pairs, ops, boundary, word, options) {
        Begun::Run(state) => set_from(pairs, ops, boundary, word, options, state, items),
        Begun::Refused(n) => Written::Refused(n),
    }
}
