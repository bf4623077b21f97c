// The numbers of a line of a column text: fields from the place after its letter on, and a line feed after them (R185).
// Each public function is total, and takes a line only where all of its numbers have a place.
#![tactic(auto)]

ghost use Rattle.std.specs.Prelude.{◌≡◌, ◌+◌, ◌*◌, ◌≤◌, map, length, drop};
ghost use Rattle.words.specs.Words.{word_of};
ghost use Rattle.columns.specs.Lines.{read_fields};
ghost use Rattle.columns.specs.Scanned.{field_reply, number_reply};
ghost use Rattle.text_line_numbers.specs.LineNumbers.{line_ends, number_on, numbers_in, numbers_at, words_of};
ghost use Rattle.text_line_numbers.specs.LineNumbers.{leading_fields, leading_in, leading_at, Stores};

use text_fields::read_field;
use words::word_of;

// Whether the line feed stands where n fields end.
fn line_ends(text: &[u8], at: usize, n: usize) -> bool
    ensures { result ≡ line_ends n (drop at text.now) }
{
    if text.len() <= at {
        return false;
    }
    if (text.len() - at - 1) / 12 < n {
        return false;
    }
    text[at + 12 * n] == 10
}

// n numbers, stored one after the other; those before the first field that is unreadable, where one is.
fn read_fields(text: &[u8], at: usize, n: usize, list: &mut [i32], place: usize) -> bool
    requires { (at + 12 * n ≤ length text.now) × (place + n ≤ length list.old) }
    ensures { Stores (read_fields n (drop at text.now))
        (leading_fields n (drop at text.now)) list.old place result list.new }
{
    for j in 0..n {
        let Some(z) = read_field(text, at + 12 * j) else {
            return false;
        };
        list[place + j] = z;
    }
    true
}

// The same, as the words of a word's letters.
fn read_words(text: &[u8], at: usize, n: usize, word: &mut [u32]) -> bool
    requires { (at + 12 * n ≤ length text.now) × (n ≤ length word.old) }
    ensures { Stores (words_of (read_fields n (drop at text.now)))
        (map word_of (leading_fields n (drop at text.now))) word.old 0 result word.new }
{
    for j in 0..n {
        let Some(z) = read_field(text, at + 12 * j) else {
            return false;
        };
        word[j] = word_of(z);
    }
    true
}

// The n numbers of a line, stored from a place on, where the list has room for them.
pub fn read_numbers(text: &[u8], at: usize, n: usize, list: &mut [i32], place: usize) -> bool
    ensures { Stores (numbers_at (length list.old) place n (drop at text.now))
        (leading_at (length list.old) place n (drop at text.now)) list.old place result
        list.new }
{
    if list.len() < place {
        return false;
    }
    if list.len() - place < n {
        return false;
    }
    if !line_ends(text, at, n) {
        return false;
    }
    read_fields(text, at, n, list, place)
}

// The n numbers of a line as the letters of a word, where it has room for them.
pub fn read_letters(text: &[u8], at: usize, n: usize, word: &mut [u32]) -> bool
    ensures { Stores (words_of (numbers_in (length word.old) n (drop at text.now)))
        (map word_of (leading_in (length word.old) n (drop at text.now))) word.old 0
        result word.new }
{
    if word.len() < n {
        return false;
    }
    if !line_ends(text, at, n) {
        return false;
    }
    read_words(text, at, n, word)
}

// The one number of a line, or none (16).
pub fn read_number(text: &[u8], at: usize) -> Option<i32>
    ensures { field_reply result ≡ number_reply (number_on (drop at text.now)) }
{
    if !line_ends(text, at, 1) {
        return None;
    }
    read_field(text, at)
}
