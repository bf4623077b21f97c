// The letters of the items of a run, joined: a character's own, and a ligature's original.
use table_queries::original;
use test_requests::request::part;

// The place after a letter that the word has at this place. Where it has another there, or none, a place past the word.
fn after_letter(word: &[u32], at: usize, letter: u32) -> usize {
    if word.get(at) == Some(&letter) {
        return at + 1;
    }
    word.len() + 1
}

// The same of several letters.
fn after_letters(word: &[u32], at: usize, letters: &[u32]) -> usize {
    let mut next = at;
    for letter in letters {
        next = after_letter(word, next, *letter);
    }
    next
}

// The same of the letters of an item: kind, value, start and length are its first four numbers. A kern has none.
fn after_item(word: &[u32], at: usize, item: &[i32]) -> usize {
    let kind = words::i32s::word_at(item, 0);
    if kind == 0 {
        return after_letter(word, at, words::i32s::word_at(item, 1));
    }
    if kind == 1 {
        let start = words::i32s::word_at(item, 2);
        let length = words::i32s::word_at(item, 3);
        return after_letters(word, at, original(word, start as usize, length as usize));
    }
    at
}

// The letters of items, six numbers each, are the word: every letter once, and in order.
pub(crate) fn are_the_word(word: &[u32], items: &[i32]) -> bool {
    let mut at = 0;
    for i in (0..items.len()).step_by(6) {
        at = after_item(word, at, part(items, i, i + 6));
    }
    at == word.len()
}
