// The word after a word of at most four letters of a set, found from the word alone (R436, R437).
#![tactic(auto)]

ghost use Rattle.std.specs.Prelude.{◌≡◌, ◌<◌, ◌≤◌, length, get_or};
ghost use Rattle.std.proofs.Math.Option.{some};
ghost use Rattle.lang.specs.Checks.{or_else, absent_refusal};
ghost use Rattle.short_words.specs.NextWords.{next_as_long, or_longer, next_short_word, short_refusal};
ghost use Rattle.short_words.specs.NextWords.{no_word, next_found, next_word_by, next_word_of};
ghost use Rattle.short_word_next.specs.Placing.{letters_with};

use letter_set::{is_member, letter_after, letter_from};
use program_checks::absent_refusal;
use short_words::{NextAnswer, NextWord, ShortWord};
use words::slices::item_at;

// 27: more than four letters, or one outside the set.
pub fn short_refusal(letters: &[u64; 4], word: &[u32]) -> u32
    ensures { result ≡ short_refusal letters.now word.now }
{
    if 4 < word.len() {
        return 27;
    }
    for letter in word {
        if !is_member(letters, *letter) {
            return 27;
        }
    }
    0
}

// An answer with no word.
fn no_word(answer: NextAnswer) -> NextWord
    ensures { result ≡ no_word answer }
{
    let none = ShortWord {
        length: 0,
        letters: [0u32; 4],
    };
    NextWord {
        answer: answer,
        word: none,
    }
}

// The letter at place j of a word of n letters, the first of which are those of another word, then c at place `kept`,
// then the least letter; 0 past them.
fn letter_at(word: &[u32], kept: usize, c: u32, least: u32, n: usize, j: usize) -> u32
    requires { (kept ≤ length word.now) × (kept < n) }
    ensures { result ≡ get_or (letters_with word.now kept c least n) j 0 }
{
    if j < kept {
        return item_at(word, j);
    }
    if j == kept {
        return c;
    }
    if j < n { least } else { 0 }
}

// There is a next word: these n letters.
fn word_with(word: &[u32], kept: usize, c: u32, least: u32, n: usize) -> NextWord
    requires { (kept ≤ length word.now) × (kept < n) × (n ≤ 4) }
    ensures { result ≡ next_found (some (letters_with word.now kept c least n)) }
{
    let first = letter_at(word, kept, c, least, n, 0);
    let second = letter_at(word, kept, c, least, n, 1);
    let third = letter_at(word, kept, c, least, n, 2);
    let fourth = letter_at(word, kept, c, least, n, 3);
    let next = ShortWord {
        length: n,
        letters: [first, second, third, fourth],
    };
    NextWord {
        answer: NextAnswer::Word,
        word: next,
    }
}

// The next word over a set whose least letter is known: the last place whose letter has a greater one gets the least
// such, and every place after it the least letter; else one letter more, and after four the end.
fn next_over(letters: &[u64; 4], word: &[u32], least: u32) -> NextWord
    requires { length word.now ≤ 4 }
    ensures { result ≡ next_found (or_longer (next_as_long letters.now least word.now)
        (length word.now) least) }
{
    for i in (0..word.len()).rev() {
        let later = letter_after(letters, word[i]);
        if let Some(c) = later {
            return word_with(word, i, c, least, word.len());
        }
    }
    if word.len() == 4 {
        return no_word(NextAnswer::End);
    }
    word_with(word, 0, least, least, word.len() + 1)
}

// The word after a word; the end after the last; 27.
pub fn next_word(letters: &[u64; 4], word: &[u32]) -> NextWord
    ensures { result ≡ next_word_of letters.now word.now }
{
    let refusal = short_refusal(letters, word);
    if refusal != 0 {
        return no_word(NextAnswer::Refused(refusal));
    }
    match letter_from(letters, 0) {
        None => no_word(NextAnswer::End),
        Some(least) => next_over(letters, word, least),
    }
}

// The same, but 4 of a boundary character first.
pub fn checked_next(letters: &[u64; 4], boundary: i32, word: &[u32]) -> NextWord
    ensures { result ≡ next_word_by
        (or_else (absent_refusal 255 boundary) (short_refusal letters.now word.now))
        (next_short_word letters.now word.now) }
{
    let edge = absent_refusal(255, boundary);
    if edge != 0 {
        return no_word(NextAnswer::Refused(edge));
    }
    next_word(letters, word)
}
