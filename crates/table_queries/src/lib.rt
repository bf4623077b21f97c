// What else a host asks of a run, of a table or of a word: after `is_separation_point`, `has_replacement` and
// `all_pairs_with_replacements` of ligkern/mod.rs, and the original of an item as a part of the caller's word. The
// table's seven-bit test is crate table_seven_bit.
//   keys  the left and the right of every pair
#![tactic(auto)]

ghost use Rattle.std.specs.Prelude.{◌≡◌};
ghost use Rattle.captions.specs.Tables.{key_by};
ghost use Rattle.captions.specs.Tables as tables;
ghost use Rattle.captions.specs.Replies.{told_reply};
ghost use Rattle.captions.specs.Steps.{right_item};
ghost use Rattle.captions.specs.Queries.{not_ligature, is_separation_point, original_of, is_found, has_entry};
ghost use Rattle.captions.specs.Queries.{has_refusal};
ghost use Rattle.captions.specs.Queries.{has_reply, ListsPairs};

mod keys;

use captions::{NextLeft, State, Told};
use keys::{keys_refusal, write_keys};
use lang::Written;
use program_checks::absent_refusal;
use table_find::{find, left_place};

fn is_no_ligature(next_left: NextLeft) -> bool
    ensures { result ≡ not_ligature next_left }
{
    match next_left {
        NextLeft::Boundary => true,
        NextLeft::Char(_) => true,
        NextLeft::Lig(_) => false,
        NextLeft::FinalLig(_) => false,
        NextLeft::None => true,
    }
}

// A word can be parted here: no op is to be given, and the next left is no ligature.
pub fn is_separation_point(state: State) -> bool
    ensures { result ≡ is_separation_point state }
{
    if state.ops != 0 {
        return false;
    }
    let next_left = state.next_left;
    is_no_ligature(next_left)
}

// The original of an item: that part of the word, and nothing where it is no part of it.
pub fn original(word: &[u32], start: usize, length: usize) -> &[u32]
    ensures { result.now ≡ original_of word.now start length }
{
    if word.len() < start {
        return &word[0..0];
    }
    if word.len() - start < length {
        return &word[0..0];
    }
    &word[start..start + length]
}

// A left (0 the boundary, else 1 + character) and a right character have an entry.
fn has_pair(pairs: &[i32], left: u32, right: u32) -> bool
    ensures { result ≡ is_found (tables.find pairs.now (key_by left right)) }
{
    find(pairs, left, right).is_some()
}

// The same of a left and a right that is the boundary character where it is -1.
fn has_entry(pairs: &[i32], boundary: i32, left: i32, right: i32) -> bool
    ensures { result ≡ has_entry pairs.now left (right_item boundary right) }
{
    let place = left_place(words::word_of(left));
    let character = words::word_of(right);
    if character < 2147483648 {
        return has_pair(pairs, place, character);
    }
    let edge = words::word_of(boundary);
    if edge < 2147483648 {
        return has_pair(pairs, place, edge);
    }
    false
}

// 4, else 7.
fn has_refusal(pairs: &[i32], boundary: i32, left: i32, right: i32) -> u32
    ensures { result ≡ has_refusal pairs.now boundary left right }
{
    let edge = absent_refusal(255, boundary);
    if edge != 0 {
        return edge;
    }
    let first = absent_refusal(255, left);
    if first != 0 {
        return first;
    }
    let second = absent_refusal(255, right);
    if second != 0 {
        return second;
    }
    if pairs.len() % 6 == 0 { 0 } else { 7 }
}

// Whether a left (-1 the boundary) and a right (-1 the boundary character) have an entry.
pub fn has_replacement(pairs: &[i32], boundary: i32, left: i32, right: i32) -> Told
    ensures { told_reply result ≡ has_reply pairs.now boundary left right }
{
    let refusal = has_refusal(pairs, boundary, left, right);
    if refusal != 0 {
        return Told::Refused(refusal);
    }
    Told::Is(has_entry(pairs, boundary, left, right))
}

// The left and the right of every pair, in order. Answers the count of pairs.
pub fn all_pairs_with_replacements(pairs: &[i32], out: &mut [i32]) -> Written
    ensures { ListsPairs pairs.now out.old result out.new }
{
    words::slices::zero_all(out);
    let refusal = keys_refusal(pairs, out.len());
    if refusal != 0 {
        return Written::Refused(refusal);
    }
    write_keys(pairs, out);
    Written::Count(pairs.len() / 6)
}
