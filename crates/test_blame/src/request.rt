// One request: seven numbers (boundary character, left entry, design size, size, magnification, 1 without the left
// boundary, override); how long the six lists are that are lent; 1 for 32,768 kerns of zero in place of those listed;
// how many letters the word has, zeros where fewer are listed; and then the instructions' numbers, the kerns, entries
// and letters, each how many there are and their numbers.
use blame::blamed_instruction;
use captions::RunOptions;
use lang::Written;
use removals::{Blamed, FontNumbers};
use test_requests::answer::{put_count, put_one};
use test_requests::request::{after, front, items, number_at};
use test_requests::write::put_line;
use words::i32s::word_at;
use words::slices::put_item;
use words::word_of;

// The number, and the two values.
fn print(rt: &impl Print, number: u32, found: usize, index: usize) {
    let mut out = [0i32; 3];
    let mut line = [0u8; 64];
    let a = put_one(&mut out, 0, number);
    let b = put_count(&mut out, a, found);
    let n = put_count(&mut out, b, index);
    let k = put_line(&mut line, b'B', Written::Count(n), &out);
    let _ = rt.write_all(front(&line, k));
}

fn put_blamed(rt: &impl Print, answer: Blamed) {
    match answer {
        Blamed::At(i) => print(rt, 0, 1, i),
        Blamed::Nothing => print(rt, 0, 0, 0),
        Blamed::Refused(n) => print(rt, n, 0, 0),
    }
}

fn copy_letters(list: &[i32], word: &mut [u32]) {
    for (i, number) in list.iter().enumerate() {
        put_item(word, i, word_of(*number));
    }
}

// The first n letters, or all where there are fewer.
fn letters(word: &[u32], n: usize) -> &[u32] {
    if word.len() < n {
        return word;
    }
    &word[..n]
}

// The first n numbers of a list, or all where there are fewer.
fn lent(list: &mut [i32], n: usize) -> &mut [i32] {
    if list.len() < n {
        return list;
    }
    &mut list[..n]
}

// The same of work.
fn lent_work(list: &mut [u32], n: usize) -> &mut [u32] {
    if list.len() < n {
        return list;
    }
    &mut list[..n]
}

fn font_numbers(numbers: &[i32]) -> FontNumbers {
    FontNumbers {
        boundary: number_at(numbers, 0),
        left_entry: number_at(numbers, 1),
        design_size: number_at(numbers, 2),
        size: number_at(numbers, 3),
        magnification: number_at(numbers, 4),
    }
}

fn options_of(numbers: &[i32]) -> RunOptions {
    RunOptions {
        disable_left_boundary: word_at(numbers, 5) == 1,
        right_boundary_override: number_at(numbers, 6),
    }
}

// The answer about a word, with lists as long as the request says, of at most 1,024 numbers.
fn blamed(numbers: &[i32], kerns: &[i32], word: &[u32]) -> Blamed {
    let entries = after(numbers, after(numbers, 15, 1), 1);
    let mut pairs = [0i32; 1024];
    let mut ops = [0i32; 1024];
    let mut pairs_without = [0i32; 1024];
    let mut ops_without = [0i32; 1024];
    let mut edited = [0i32; 1024];
    let mut work = [0u32; 1024];
    blamed_instruction(
        items(numbers, 15, 1),
        kerns,
        items(numbers, entries, 2),
        font_numbers(numbers),
        word,
        options_of(numbers),
        lent(&mut pairs, word_at(numbers, 7) as usize),
        lent(&mut ops, word_at(numbers, 8) as usize),
        lent(&mut pairs_without, word_at(numbers, 9) as usize),
        lent(&mut ops_without, word_at(numbers, 10) as usize),
        lent(&mut edited, word_at(numbers, 11) as usize),
        lent_work(&mut work, word_at(numbers, 12) as usize),
    )
}

fn answer_of(numbers: &[i32], word: &[u32]) -> Blamed {
    if word_at(numbers, 13) == 1 {
        let kerns = [0i32; 32768];
        return blamed(numbers, &kerns, word);
    }
    blamed(numbers, items(numbers, after(numbers, 15, 1), 1), word)
}

pub(crate) fn answer(rt: &impl Print, numbers: &[i32]) {
    let entries = after(numbers, after(numbers, 15, 1), 1);
    let mut word = [0u32; 65536];
    copy_letters(items(numbers, after(numbers, entries, 2), 1), &mut word);
    put_blamed(
        rt,
        answer_of(numbers, letters(&word, word_at(numbers, 14) as usize)),
    );
}
