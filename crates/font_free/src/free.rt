// Whether a state is free: no op and no ligature is pending, and its left has no pair with what follows. Each function
// is the definition of its name in font_runs/specs/Changes.antt.
ghost use Rattle.std.specs.Prelude.{◌≡◌};
ghost use Rattle.std.proofs.Math.Option.{none, some};
ghost use Rattle.words.specs.Words.{number_of};
ghost use Rattle.captions.specs.declared.NextLeft.TheVariants as next;
ghost use Rattle.captions.specs.Steps.{or_boundary, right_item};
ghost use Rattle.font_runs.specs.Changes.{pairless, left_free, free_state};

use captions::{NextLeft, RunOptions, State};
use table_find::find;
use words::word_of;

// The right item of a word, as its bits: the override, else the boundary character.
fn right_item(boundary: i32, over: i32) -> u32
    ensures { or_boundary (number_of result) ≡ right_item boundary over }
{
    let w = word_of(over);
    if w < 2147483648 { w } else { word_of(boundary) }
}

// A left (0 the boundary, else 1 + character) and a right have no pair.
fn is_pairless(pairs: &[i32], left: u32, right: u32) -> bool
    ensures { result ≡ pairless pairs.now left (some right) }
{
    if 256 < left {
        return true;
    }
    if 255 < right {
        return true;
    }
    find(pairs, left, right).is_none()
}

// The left boundary: with a letter to read, and no pair with it.
fn is_boundary_free(pairs: &[i32], word: &[u32], read: usize) -> bool
    ensures { result ≡ left_free pairs.now none word.now read next.Boundary }
{
    if read < word.len() {
        return is_pairless(pairs, 0, word[read]);
    }
    false
}

// A character: no pair with the next letter, or past the last with the right item.
fn is_character_free(pairs: &[i32], right: u32, word: &[u32], read: usize, c: u32) -> bool
    ensures { result ≡ left_free pairs.now (or_boundary (number_of right)) word.now read
        (next.Char c) }
{
    if 255 < c {
        return true;
    }
    if read < word.len() {
        return is_pairless(pairs, c + 1, word[read]);
    }
    is_pairless(pairs, c + 1, right)
}

// The next left, by what it is.
fn is_left_free(pairs: &[i32], right: u32, word: &[u32], read: usize, left: NextLeft) -> bool
    ensures { result ≡ left_free pairs.now (or_boundary (number_of right)) word.now read
        left }
{
    match left {
        NextLeft::Boundary => is_boundary_free(pairs, word, read),
        NextLeft::Char(c) => is_character_free(pairs, right, word, read, c),
        NextLeft::Lig(_) => false,
        NextLeft::FinalLig(_) => false,
        NextLeft::None => false,
    }
}

// A free state.
pub fn is_free(pairs: &[i32], boundary: i32, word: &[u32], options: RunOptions, s: State) -> bool
    ensures { result ≡ free_state pairs.now (right_item boundary options.right_boundary_override)
        word.now s }
{
    if s.ops != 0 {
        return false;
    }
    if s.pending != 0 {
        return false;
    }
    let right = right_item(boundary, options.right_boundary_override);
    let left = s.next_left;
    is_left_free(pairs, right, word, s.read, left)
}
