// The next short word in lists, for a host in C: its letters, its items and what is told of it.
#![tactic(auto)]

ghost use Rattle.std.specs.Prelude.{◌≡◌, ◌≤◌, pos, length, get_or};
ghost use Rattle.std.proofs.lemmas.List.Edits.{sets};
ghost use Rattle.c_values.specs.Telling.{natural};
ghost use Rattle.short_words.specs.NextWords.{next_answer_reply};
ghost use Rattle.c_word_write.specs.NextLists.{letter_numbers, next_values, WritesNext};

use c_values::lists::keep_list;
use program_checks::lower_of;
use program_limits::room_refusal;
use short_words::{NextAnswer, SetNext, ShortWord};
use words::slices::{put_item, zero_all};

// The number of a refusal, else 0.
fn answer_refusal(answer: NextAnswer) -> u32
    ensures { result ≡ (next_answer_reply answer).number }
{
    match answer {
        NextAnswer::Word => 0,
        NextAnswer::End => 0,
        NextAnswer::Refused(n) => n,
    }
}

// 1 where there is a next word.
fn more_number(answer: NextAnswer) -> u64
    ensures { result ≡ natural (get_or (next_answer_reply answer).values 0 (pos 0)) }
{
    match answer {
        NextAnswer::Word => 1,
        NextAnswer::End => 0,
        NextAnswer::Refused(_) => 0,
    }
}

// The four letters of a word at the front of a list.
fn put_letters(next: &mut [u32], word: ShortWord)
    ensures { next.new ≡ sets next.old 0 (letter_numbers word) }
{
    let letters = word.letters;
    put_item(next, 0, letters[0]);
    put_item(next, 1, letters[1]);
    put_item(next, 2, letters[2]);
    put_item(next, 3, letters[3]);
}

// Whether there is a next word, its length and how many items it has, at the front of a list.
fn put_values(values: &mut [u64], told: SetNext)
    requires { 3 ≤ length values.old }
    ensures { values.new ≡ sets values.old 0 (next_values told) }
{
    let answer = told.answer;
    let word = told.word;
    values[0] = more_number(answer);
    values[1] = word.length as u64;
    values[2] = told.count as u64;
}

// What set_next answered, and the items that it wrote: the letters in four places and the values in three, with zeros
// after them; or the number, the lower of its own and 15 where `next` or `values` has no room, and zeros.
pub fn write_next(told: SetNext, next: &mut [u32], items: &mut [i32], values: &mut [u64]) -> u32
    ensures { WritesNext told next.old items.old values.old result
        next.new items.new values.new }
{
    zero_all(next);
    zero_all(values);
    let room = lower_of(room_refusal(4, next.len()), room_refusal(3, values.len()));
    let answer = told.answer;
    let number = lower_of(answer_refusal(answer), room);
    keep_list(number, items);
    if number != 0 {
        return number;
    }
    let found = told.word;
    put_letters(next, found);
    put_values(values, told);
    0
}
