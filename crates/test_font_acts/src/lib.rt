// What a host does on one run: four fonts (boundary character, pairs, ops), and acts of twelve numbers: 1 and a font to
// ask for, 2 to start a word, 3 to make a step; then whether the left boundary is left out, the override, the length of
// the word, and its letters, at most eight.
#![tactic(auto)]

ghost use Rattle.std.specs.Prelude.{◌≡◌};
ghost use Rattle.test_font_acts.specs.Acts.{past_of, acts_of, act_count};

use c_font_requests::{ligkern_ask_font, ligkern_start_word};
use c_font_steps::ligkern_font_step;
use lang::Written;
use test_requests::answer::put_one;
use test_requests::request::{after, front, items, number_at, rest};
use test_requests::write::put_line;
use words::i32s::word_at;
use words::slices::item_at;
use words::word_of;

// What stands after the first font.
fn past(numbers: &[i32]) -> &[i32]
    ensures { result.now ≡ past_of numbers.now }
{
    rest(numbers, after(numbers, after(numbers, 1, 6), 2))
}

// The font of a number.
fn font(numbers: &[i32], k: u64) -> &[i32] {
    match k {
        0 => numbers,
        1 => past(numbers),
        2 => past(past(numbers)),
        _ => past(past(past(numbers))),
    }
}

fn pairs(font: &[i32]) -> &[i32] {
    items(font, 1, 6)
}

fn ops(font: &[i32]) -> &[i32] {
    items(font, after(font, 1, 6), 2)
}

// The low 32 bits of a number of the run.
fn low(run: &[u64], i: usize) -> u32 {
    (item_at(run, i) % 4294967296) as u32
}

// A line: the number, the fonts in force and asked for, and the item of a step.
fn print(rt: &impl Print, letter: u8, number: u32, run: &[u64], item: &[i32]) {
    let mut out = [0i32; 16];
    let mut line = [0u8; 256];
    let a = put_one(&mut out, 0, number);
    let b = put_one(&mut out, a, low(run, 9));
    let c = put_one(&mut out, b, low(run, 10));
    let d = put_one(&mut out, c, low(run, 11));
    let n = put_item(&mut out, d, item);
    let k = put_line(&mut line, letter, Written::Count(n), &out);
    let _ = rt.write_all(front(&line, k));
}

fn put_item(out: &mut [i32], at: usize, item: &[i32]) -> usize {
    let mut next = at;
    for number in item {
        next = put_one(out, next, word_of(*number));
    }
    next
}

// The letters of an act.
fn copy_letters(act: &[i32], letters: &mut [u32]) {
    for i in 0..8 {
        words::slices::put_item(letters, i, word_at(act, i + 4));
    }
}

// The first n of them, or all.
fn first(letters: &[u32], n: usize) -> &[u32] {
    &letters[..n.min(letters.len())]
}

fn ask(rt: &impl Print, numbers: &[i32], act: &[i32], run: &mut [u64]) {
    let number = word_at(act, 1);
    let f = font(numbers, number as u64);
    let refusal = ligkern_ask_font(number, pairs(f), ops(f), number_at(f, 0), run);
    let none = [0i32; 0];
    print(rt, b'A', refusal, run, &none);
}

fn start(rt: &impl Print, numbers: &[i32], act: &[i32], word: &[u32], run: &mut [u64]) {
    let f = font(numbers, item_at(run, 9));
    let g = font(numbers, item_at(run, 11));
    let refusal = ligkern_start_word(
        pairs(f),
        ops(f),
        number_at(f, 0),
        pairs(g),
        ops(g),
        number_at(g, 0),
        word,
        word_at(act, 1) == 1,
        number_at(act, 2),
        run,
    );
    let none = [0i32; 0];
    print(rt, b'W', refusal, run, &none);
}

fn step(rt: &impl Print, numbers: &[i32], act: &[i32], word: &[u32], run: &mut [u64]) {
    let mut item = [0i32; 7];
    let f = font(numbers, item_at(run, 9));
    let g = font(numbers, item_at(run, 11));
    let refusal = ligkern_font_step(
        pairs(f),
        ops(f),
        number_at(f, 0),
        pairs(g),
        ops(g),
        number_at(g, 0),
        word,
        word_at(act, 1) == 1,
        number_at(act, 2),
        run,
        &mut item,
    );
    print(rt, b'T', refusal, run, &item);
}

fn act(rt: &impl Print, numbers: &[i32], act: &[i32], run: &mut [u64]) {
    let mut letters = [0u32; 8];
    copy_letters(act, &mut letters);
    let word = first(&letters, word_at(act, 3) as usize);
    match word_at(act, 0) {
        1 => ask(rt, numbers, act, run),
        2 => start(rt, numbers, act, word, run),
        _ => step(rt, numbers, act, word, run),
    }
}

// All of them; how many there are.
fn acts(rt: &impl Print, numbers: &[i32], all: &[i32], run: &mut [u64]) -> usize
    ensures { result ≡ act_count all.now }
{
    for i in 0..all.len() / 12 {
        act(rt, numbers, rest(all, 12 * i), run);
    }
    all.len() / 12
}

// The acts that stand after four fonts, made on a run of zeros, each with a line of what it left. Answers how many
// there are.
pub fn answer(rt: &impl Print, numbers: &[i32]) -> usize
    ensures { result ≡ act_count (acts_of numbers.now) }
{
    let mut run = [0u64; 12];
    acts(rt, numbers, past(past(past(past(numbers)))), &mut run)
}
