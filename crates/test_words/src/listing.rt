// One line: a set, a table, and a word from which words are listed. Written are the counts of the set, the word handed
// in, and for each turn a line W with the next word and a line T for each of its items; or E at the end; or N and the
// number of a refusal, which ends the line.
use lang::Written;
use letter_set::{alphabet_size, word_count};
use short_word_set::set_next;
use short_words::{NextAnswer, SetNext, ShortWord};
use test_requests::answer::{put_one, put_words};
use test_requests::request::{after, front, items, number_at, rest};
use test_requests::write::put_line;
use words::i32s::word_at;
use words::word_of;

// A line of the first numbers of a list.
fn print(rt: &impl Print, letter: u8, numbers: &[i32], n: usize) {
    let mut line = [0u8; 128];
    let k = put_line(&mut line, letter, Written::Count(n), numbers);
    let _ = rt.write_all(front(&line, k));
}

fn print_word(rt: &impl Print, word: &[u32]) {
    let mut out = [0i32; 8];
    let n = put_words(&mut out, 0, word, word.len());
    print(rt, b'W', &out, n);
}

fn print_items(rt: &impl Print, list: &[i32], count: usize) {
    for i in 0..list.len() / 6 {
        if i < count {
            print(rt, b'T', rest(list, 6 * i), 6);
        }
    }
}

// The letters of a word, of which there are no more than it has places.
fn letters(places: &[u32], n: usize) -> &[u32] {
    if places.len() < n {
        return places;
    }
    &places[..n]
}

fn print_short(rt: &impl Print, word: ShortWord) {
    let all = word.letters;
    print_word(rt, letters(&all, word.length));
}

// What a turn answered.
fn print_next(rt: &impl Print, told: SetNext, list: &[i32]) {
    let answer = told.answer;
    match answer {
        NextAnswer::Word => {
            let word = told.word;
            print_short(rt, word);
            print_items(rt, list, told.count);
        }
        NextAnswer::End => print(rt, b'E', list, 0),
        NextAnswer::Refused(n) => {
            let mut out = [0i32; 1];
            put_one(&mut out, 0, n);
            print(rt, b'N', &out, 1);
        }
    }
}

fn is_word(answer: NextAnswer) -> bool {
    match answer {
        NextAnswer::Word => true,
        NextAnswer::End => false,
        NextAnswer::Refused(_) => false,
    }
}

// How many letters and how many words, the second as millions and the rest.
fn print_counts(rt: &impl Print, set: &[u64; 4]) {
    let mut out = [0i32; 3];
    put_one(&mut out, 0, alphabet_size(set));
    let n = word_count(set);
    put_one(&mut out, 1, ((n / 1000000) % 4294967296) as u32);
    put_one(&mut out, 2, (n % 1000000) as u32);
    print(rt, b'C', &out, 3);
}

// A character of the set, if it is below 256.
fn with_letter(set: [u64; 4], c: u32) -> [u64; 4] {
    let mut s = set;
    let w = (c / 64) as usize;
    if w < 4 {
        s[w] = s[w] | (1u64 << ((c % 64) as u64));
    }
    s
}

// The set of listed characters.
fn set_of(list: &[i32]) -> [u64; 4] {
    let mut set = [0u64; 4];
    for number in list {
        let more = with_letter(set, word_of(*number));
        set = more;
    }
    set
}

// The word after a word that was answered.
fn turn(
    rt: &impl Print,
    set: &[u64; 4],
    pairs: &[i32],
    ops: &[i32],
    boundary: i32,
    word: ShortWord,
    list: &mut [i32],
) -> SetNext {
    let all = word.letters;
    let told = set_next(set, pairs, ops, boundary, letters(&all, word.length), list);
    print_next(rt, told, list);
    told
}

// So many turns from a word on, unless the end or a refusal comes first.
fn turns(
    rt: &impl Print,
    set: &[u64; 4],
    pairs: &[i32],
    ops: &[i32],
    boundary: i32,
    word: &[u32],
    n: usize,
    list: &mut [i32],
) {
    let first = set_next(set, pairs, ops, boundary, word, list);
    print_next(rt, first, list);
    let mut told = first;
    for _ in 1..n {
        let answer = told.answer;
        if !is_word(answer) {
            return;
        }
        let found = told.word;
        let next = turn(rt, set, pairs, ops, boundary, found, list);
        told = next;
    }
}

// The word handed in, from the numbers of a list.
fn list_from(
    rt: &impl Print,
    set: &[u64; 4],
    pairs: &[i32],
    ops: &[i32],
    boundary: i32,
    word: &[i32],
    n: usize,
    list: &mut [i32],
) {
    let mut places = [0u32; 8];
    for i in 0..8 {
        places[i] = word_at(word, i);
    }
    let handed = letters(&places, word.len());
    print_word(rt, handed);
    turns(rt, set, pairs, ops, boundary, handed, n, list);
}

// The boundary character, how many turns, the pairs, the ops, the word, and the set.
pub(crate) fn answer(rt: &impl Print, numbers: &[i32]) {
    let ops_at = after(numbers, 2, 6);
    let handed_at = after(numbers, ops_at, 2);
    let set_at = after(numbers, handed_at, 1);
    let set = set_of(items(numbers, set_at, 1));
    print_counts(rt, &set);
    let mut list = [0i32; 96];
    list_from(
        rt,
        &set,
        items(numbers, 2, 6),
        items(numbers, ops_at, 2),
        number_at(numbers, 0),
        items(numbers, handed_at, 1),
        (word_at(numbers, 1) % 256) as usize,
        &mut list,
    );
}
