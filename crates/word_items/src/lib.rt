// A list of items, six numbers each as a T line has them (R132, R133): one item written, and what is answered where a
// run stops (R134). Each function is total.
#![tactic(auto)]

ghost use Rattle.std.specs.Prelude.{◌≡◌};
ghost use Rattle.words.specs.Words.{number_of};
ghost use Rattle.captions.specs.Replies.{bit_number, answer_reply};
ghost use Rattle.word_plain_letters.specs.PlainLetters.{six_at};
ghost use Rattle.word_items.specs.ItemLists.{is_item, Small, is_small, item_at, Stops};

use captions::Answer;
use lang::Written;
use word_plain_letters::put_six;
use words::slices::zero_all;
use words::word_of;

// Neither the end nor a refusal.
pub fn is_item(answer: Answer) -> bool
    ensures { result ≡ is_item answer }
{
    match answer {
        Answer::Char(_, _) => true,
        Answer::Ligature(_, _, _, _, _) => true,
        Answer::Kern(_) => true,
        Answer::End => false,
        Answer::Refused(_) => false,
    }
}

// The numbers of an answer are those that a step can give.
fn is_small(answer: Answer) -> bool
    ensures { result ≡ is_small answer }
{
    match answer {
        Answer::Char(c, start) => c <= 1114111 && start <= 65535,
        Answer::Ligature(c, start, n, _, _) => {
            if 1114111 < c {
                return false;
            }
            start <= 65535 && n <= 65535
        }
        Answer::Kern(_) => true,
        Answer::End => true,
        Answer::Refused(n) => 0 < n && n <= 20,
    }
}

// 1 where a flag is set.
fn bit(flag: bool) -> u32
    ensures { number_of result ≡ bit_number flag }
{
    if flag { 1 } else { 0 }
}

// The numbers of an item at a place, if there is room for them; the end and a refusal have none.
fn write_item(items: &mut [i32], at: usize, answer: Answer)
    requires { Small answer }
    ensures { items.new ≡ six_at items.old at (answer_reply answer).values }
{
    match answer {
        Answer::Char(c, start) => put_six(items, at, 0, c, start as u32, 1, 0, 0),
        Answer::Ligature(c, start, n, l, r) => {
            put_six(items, at, 1, c, start as u32, n as u32, bit(l), bit(r))
        }
        Answer::Kern(value) => put_six(items, at, 2, word_of(value), 0, 0, 0, 0),
        Answer::End => {}
        Answer::Refused(_) => {}
    }
}

// The numbers of an item at a place; nothing where there is no room for six numbers, or where those of the answer are
// no step's.
pub fn put_item(items: &mut [i32], at: usize, answer: Answer)
    ensures { items.new ≡ item_at items.old at answer }
{
    if is_small(answer) {
        write_item(items, at, answer);
    }
}

// What is answered where a run stops after k items: their count; or the number of a refusal, with zeros for the items.
pub fn stopped(items: &mut [i32], k: usize, answer: Answer) -> Written
    ensures { Stops answer k items.old result items.new }
{
    match answer {
        Answer::Char(_, _) => Written::Count(k),
        Answer::Ligature(_, _, _, _, _) => Written::Count(k),
        Answer::Kern(_) => Written::Count(k),
        Answer::End => Written::Count(k),
        Answer::Refused(n) => {
            zero_all(items);
            Written::Refused(n)
        }
    }
}
