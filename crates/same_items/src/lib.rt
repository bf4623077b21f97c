// Two runs of one word over two tables, beside each other (R482): a step on each in turn, and nothing is stored.
#![tactic(auto)]

ghost use Rattle.std.specs.Prelude.{◌≡◌};
ghost use Rattle.captions.specs.Begin.{fresh_state};
ghost use Rattle.removals.specs.Items.{run_items, same_items};

use caption_run::begin::fresh_state;
use caption_run::steps::step;
use captions::{RunOptions, State};
use same_answer::same_answer;
use word_items::is_item;

// The runs from one state over two tables come to their end with the same items.
fn same_from(
    pairs: &[i32],
    ops: &[i32],
    pairs_without: &[i32],
    ops_without: &[i32],
    boundary: i32,
    word: &[u32],
    options: RunOptions,
    state: State,
) -> bool
    ensures { result ≡ same_items
        (run_items pairs.now ops.now boundary word.now options state)
        (run_items pairs_without.now ops_without.now boundary word.now options
        state) }
{
    let mut s = state;
    let mut t = state;
    loop {
        let a = step(pairs, ops, boundary, word, options, s);
        let b = step(pairs_without, ops_without, boundary, word, options, t);
        let first = a.answer;
        let second = b.answer;
        if !same_answer(first, second) {
            return false;
        }
        if !is_item(first) {
            return true;
        }
        s = a.state;
        t = b.state;
    }
}

// The runs of a word over two tables, from a fresh state, come to their end with the same items.
pub fn same_run(
    pairs: &[i32],
    ops: &[i32],
    pairs_without: &[i32],
    ops_without: &[i32],
    boundary: i32,
    word: &[u32],
    options: RunOptions,
) -> bool
    ensures { result ≡ same_items
        (run_items pairs.now ops.now boundary word.now options
        (fresh_state word.now options))
        (run_items pairs_without.now ops_without.now boundary word.now options
        (fresh_state word.now options)) }
{
    let fresh = fresh_state(word, options);
    same_from(
        pairs,
        ops,
        pairs_without,
        ops_without,
        boundary,
        word,
        options,
        fresh,
    )
}
