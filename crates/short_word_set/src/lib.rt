// The next short word with its items, six numbers each as a T line has them (R439).
#![tactic(auto)]

ghost use Rattle.std.specs.Prelude.{◌≡◌, ◌≤◌, pos, length, replicate};
ghost use Rattle.short_words.specs.NextWords.{held_word};
ghost use Rattle.short_word_items.specs.NextItems.{next_word_items};
ghost use Rattle.short_word_set.specs.SetNext.{not_set, word_found, SetsFound, SetsNext};

use lang::Written;
use short_word_items::set_items;
use short_word_next::checked_next;
use short_words::{NextAnswer, SetNext, ShortWord};
use words::slices::zero_all;

// No word is answered: zeros for the items.
fn not_set(answer: NextAnswer, items: &mut [i32]) -> SetNext
    ensures { (result ≡ not_set answer) ×
        (items.new ≡ replicate (length items.old) (pos 0)) }
{
    zero_all(items);
    let none = ShortWord {
        length: 0,
        letters: [0u32; 4],
    };
    SetNext {
        answer: answer,
        word: none,
        count: 0,
    }
}

// A word that there is, with its items; or their number, and zeros.
fn set_found(
    pairs: &[i32],
    ops: &[i32],
    boundary: i32,
    first: bool,
    word: ShortWord,
    items: &mut [i32],
) -> SetNext
    requires { word.length ≤ 4 }
    ensures { SetsFound
        (next_word_items first pairs.now ops.now boundary (held_word word)
        (length items.old)) (word_found word) items.old result items.new }
{
    let letters = word.letters;
    let length = word.length;
    match set_items(pairs, ops, boundary, first, &letters[..length], items) {
        Written::Refused(n) => not_set(NextAnswer::Refused(n), items),
        Written::Count(k) => SetNext {
            answer: NextAnswer::Word,
            word: word,
            count: k,
        },
    }
}

// The next word and its items, with zeros after them. 4, 7, 15 and 27; 7 and 15 are of a next word that exists.
pub fn set_next(
    letters: &[u64; 4],
    pairs: &[i32],
    ops: &[i32],
    boundary: i32,
    word: &[u32],
    items: &mut [i32],
) -> SetNext
    ensures { SetsNext letters.now pairs.now ops.now boundary
        word.now items.old result items.new }
{
    let next = checked_next(letters, boundary, word);
    let answer = next.answer;
    match answer {
        NextAnswer::Word => {
            let found = next.word;
            set_found(pairs, ops, boundary, word.len() == 0, found, items)
        }
        NextAnswer::End => not_set(NextAnswer::End, items),
        NextAnswer::Refused(n) => not_set(NextAnswer::Refused(n), items),
    }
}
