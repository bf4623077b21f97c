// A fresh run, after `run_with_options` of ligkern/mod.rs: what it is given is checked whole, in time linear in it.
ghost use Rattle.std.specs.Prelude.{◌≡◌};
ghost use Rattle.captions.specs.Replies.{begun_reply};
ghost use Rattle.lang.specs.Checks.{or_else};
ghost use Rattle.captions.specs.Begin.{letters_refusal, override_refusal, begin_refusal, fresh_state, begin_reply};
ghost use Rattle.captions.specs.Form.{table_refusal};
ghost use Rattle.captions.specs.Begin as begun;

use crate::edges::{edges_refusal, override_refusal, word_refusal};
use captions::{Begun, Consumes, NextLeft, RunOptions, State};
use program_checks::is_letter;
use table_form::table_refusal;

// 20: a letter that is none, asked letter by letter.
fn each_refusal(word: &[u32]) -> u32
    ensures { result ≡ letters_refusal word.now }
{
    for letter in word {
        if !is_letter(*letter) {
            return 20;
        }
    }
    0
}

// 20: a letter that is none. The letters are or-ed together: 32,767 is all of the low fifteen bits, and what is not
// above it is a letter.
pub fn letters_refusal(word: &[u32]) -> u32
    ensures { result ≡ letters_refusal word.now }
{
    let mut all: u32 = 0;
    for letter in word {
        all |= *letter;
    }
    if 32767 < all { each_refusal(word) } else { 0 }
}

// 20: a letter or the override is none.
fn codes_refusal(word: &[u32], options: RunOptions) -> u32
    ensures { result ≡ or_else (letters_refusal word.now)
        (override_refusal options.right_boundary_override) }
{
    let letters = letters_refusal(word);
    if letters != 0 {
        return letters;
    }
    override_refusal(options.right_boundary_override)
}

// 7, or else this number.
fn late_refusal(pairs: &[i32], ops: &[i32], codes: u32) -> u32
    ensures { result ≡ or_else (table_refusal pairs.now ops.now) codes }
{
    let table = table_refusal(pairs, ops);
    if table != 0 {
        return table;
    }
    codes
}

// 4, 6, 7 or 20, the lowest that holds. The word is asked first, so that nothing of it is kept while the table is read.
fn begin_refusal(
    pairs: &[i32],
    ops: &[i32],
    boundary: i32,
    word: &[u32],
    options: RunOptions,
) -> u32
    ensures { result ≡ begin_refusal pairs.now ops.now boundary word.now
        options }
{
    let edges = edges_refusal(boundary, options);
    if edges != 0 {
        return edges;
    }
    let long = word_refusal(word);
    if long != 0 {
        return long;
    }
    let codes = codes_refusal(word, options);
    if codes != 0 {
        return late_refusal(pairs, ops, codes);
    }
    table_refusal(pairs, ops)
}

// No ops, no letters given and no pending ligature.
fn fresh(next_left: NextLeft, read: usize) -> State
    ensures { result ≡ begun.fresh next_left read }
{
    State {
        next_left: next_left,
        op: 0,
        ops: 0,
        read: read,
        given: 0,
        pending: 0,
        pending_boundary: false,
        consumes_left: Consumes::Nothing,
    }
}

// The state of a run that has given nothing. Without the left boundary the first letter stands left of the cursor.
pub fn fresh_state(word: &[u32], options: RunOptions) -> State
    ensures { result ≡ fresh_state word.now options }
{
    if !options.disable_left_boundary {
        return fresh(NextLeft::Boundary, 0);
    }
    if word.len() == 0 {
        return fresh(NextLeft::None, 0);
    }
    fresh(NextLeft::Char(word[0]), 1)
}

// A run that has given nothing.
pub fn begin(pairs: &[i32], ops: &[i32], boundary: i32, word: &[u32], options: RunOptions) -> Begun
    ensures { begun_reply result ≡ begin_reply pairs.now ops.now boundary
        word.now options }
{
    let refusal = begin_refusal(pairs, ops, boundary, word, options);
    if refusal != 0 {
        return Begun::Refused(refusal);
    }
    Begun::Run(fresh_state(word, options))
}
