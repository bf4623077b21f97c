// The run over a word: W. A word has at most 1,024 letters, and a run at most 1,024 calls.
ghost use Rattle.std.specs.Prelude.{◌<◌};

use crate::letters::are_the_word;
use crate::room;
use caption_run::begin::begin;
use captions::{Answer, Begun, RunOptions, State};
use lang::Written;
use table_queries::{is_separation_point, original};
use test_requests::answer::{bit, put_count, put_list, put_words};
use test_requests::request::{from_end, items, number_at, part};

fn low(n: usize) -> u32 {
    (n % 4294967296) as u32
}

// The six numbers of an answer: kind, value, start, length, and two flags. Kind 3 is the end, and kind 4 a refusal,
// whose number is the value. The length of a ligature is that of the original that the word hands back.
fn item_of(word: &[u32], answer: Answer) -> [u32; 6] {
    match answer {
        Answer::Char(c, start) => [0, c, low(start), 1, 0, 0],
        Answer::Ligature(c, start, length, left, right) => {
            let taken = original(word, start, length);
            [1, c, low(start), low(taken.len()), bit(left), bit(right)]
        }
        Answer::Kern(value) => [2, words::word_of(value), 0, 0, 0, 0],
        Answer::End => [3, 0, 0, 0, 0, 0],
        Answer::Refused(n) => [4, n, 0, 0, 0, 0],
    }
}

// The item and the flag of call n: six numbers at 6 * n, and one at 6,144 + n.
fn put_call(calls: &mut [i32], n: usize, item: [u32; 6], flag: u32)
    requires { n < 1024 }
{
    put_words(calls, 6 * n, &item, 6);
    words::i32s::put_word(calls, 6144 + n, flag);
}

// The answer to a run whose call n gave no item.
fn ended(n: usize, kind: u32, value: u32) -> Written {
    if kind == 3 {
        return Written::Count(n);
    }
    Written::Refused(value)
}

// Steps until one gives no item. How many gave one, or the refusal.
fn run(
    pairs: &[i32],
    ops: &[i32],
    boundary: i32,
    word: &[u32],
    options: RunOptions,
    state: State,
    calls: &mut [i32],
) -> Written {
    let mut s = state;
    for n in 0..1024 {
        let step = caption_run::steps::step(pairs, ops, boundary, word, options, s);
        let answer = step.answer;
        let item = item_of(word, answer);
        put_call(calls, n, item, bit(is_separation_point(s)));
        if 2 < item[0] {
            return ended(n, item[0], item[1]);
        }
        s = step.state;
    }
    Written::Refused(15)
}

// The same, from the begin on.
fn begin_and_run(
    pairs: &[i32],
    ops: &[i32],
    boundary: i32,
    word: &[u32],
    options: RunOptions,
    calls: &mut [i32],
) -> Written {
    match begin(pairs, ops, boundary, word, options) {
        Begun::Run(state) => run(pairs, ops, boundary, word, options, state, calls),
        Begun::Refused(n) => Written::Refused(n),
    }
}

// The n items of a run that ended, and n + 1 flags.
fn put_calls(out: &mut [i32], n: usize, calls: &[i32]) -> usize
    requires { n < 1024 }
{
    let a = put_count(out, 0, n);
    let b = put_list(out, a, part(calls, 0, 6 * n));
    put_list(out, b, part(calls, 6144, 6145 + n))
}

// The same, or the refusal; 7 where the letters of the items, joined, are not the word.
fn put_run(out: &mut [i32], answer: Written, word: &[u32], calls: &[i32]) -> Written {
    match answer {
        Written::Count(n) => {
            let many = n % 1024;
            if !are_the_word(word, part(calls, 0, 6 * many)) {
                return Written::Refused(7);
            }
            Written::Count(put_calls(out, many, calls))
        }
        Written::Refused(n) => Written::Refused(n),
    }
}

// Letters from the numbers of a request.
fn copy_letters(list: &[i32], word: &mut [u32]) {
    for (i, number) in list.iter().enumerate() {
        words::slices::put_item(word, i, words::word_of(*number));
    }
}

// The first n letters.
fn first(word: &[u32], n: usize) -> &[u32] {
    &word[..n.min(word.len())]
}

// The options that the numbers begin with: whether the left boundary is used, and the override.
fn options_of(numbers: &[i32]) -> RunOptions {
    RunOptions {
        disable_left_boundary: words::i32s::word_at(numbers, 0) == 0,
        right_boundary_override: number_at(numbers, 1),
    }
}

// The items and the separation flags of the word that comes next.
pub(crate) fn word_set(numbers: &[i32], pairs: &[i32], ops: &[i32], out: &mut [i32]) -> Written {
    let list = items(numbers, 2, 1);
    let mut letters = room::words();
    copy_letters(list, &mut letters);
    let boundary = number_at(numbers, from_end(numbers, 2));
    let options = options_of(numbers);
    let mut calls = room::calls();
    let word = first(&letters, list.len());
    let answer = begin_and_run(pairs, ops, boundary, word, options, &mut calls);
    put_run(out, answer, word, &calls)
}
