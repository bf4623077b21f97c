// The words for the items of a word, a line each.
use crate::print::{print_coded, print_counted, print_named, print_text};
use lang::Written;
use phrase_put::bytes_before;
use point_print::print_scaled;
use std::num::wrapping_add_u32;
use words::i32s::word_at;
use words::number_of;

// The kind of a character, the item's first number.
const CHARACTER: u32 = 0;

// The kind of a ligature; all that is neither is a kern.
const LIGATURE: u32 = 1;

// So many letters of a word from a place on; fewer where the word ends.
fn part(word: &[u8], start: usize, length: usize) -> &[u8] {
    let from = start.min(word.len());
    bytes_before(&word[from..], length)
}

// Letters in quotes.
fn print_letters(rt: &(impl Print + Eprint), letters: &[u8]) {
    print_text(rt, b" for '");
    for letter in letters {
        print_coded(rt, b"", *letter as u32);
    }
}

// Which letters of the word they are, counted from 1.
fn print_places(rt: &(impl Print + Eprint), start: u32, length: u32) {
    let first = wrapping_add_u32(start, 1);
    if length == 1 {
        print_counted(rt, b"', letter ", first);
        return;
    }
    print_counted(rt, b"', letters ", first);
    print_counted(rt, b" to ", wrapping_add_u32(start, length));
}

// What a ligature is for.
fn print_original(rt: &(impl Print + Eprint), word: &[u8], start: u32, length: u32) {
    if length == 0 {
        print_text(rt, b" for nothing");
        return;
    }
    print_letters(rt, part(word, start as usize, length as usize));
    print_places(rt, start, length);
}

// A text where a flag is set.
fn print_flag(rt: &(impl Print + Eprint), flag: bool, text: &[u8]) {
    if flag {
        print_text(rt, text);
    }
}

// A kern, as TeX prints a scaled number.
fn print_kern(rt: &(impl Print + Eprint), value: u32) {
    let mut text = [0u8; 16];
    if let Written::Count(n) = print_scaled(number_of(value), &mut text) {
        print_text(rt, b"kern ");
        print_text(rt, bytes_before(&text, n));
        print_text(rt, b" points\n");
    }
}

// A ligature of six numbers.
fn print_ligature(rt: &(impl Print + Eprint), item: &[i32], word: &[u8]) {
    print_named(rt, b"ligature ", word_at(item, 1));
    print_original(rt, word, word_at(item, 2), word_at(item, 3));
    print_flag(rt, word_at(item, 4) != 0, b", start of the word");
    print_flag(rt, word_at(item, 5) != 0, b", end of the word");
    print_text(rt, b"\n");
}

// An item of six numbers: its kind, its code or its value, and for a ligature its letters and its two flags.
fn print_item(rt: &(impl Print + Eprint), item: &[i32], word: &[u8]) {
    match word_at(item, 0) {
        CHARACTER => {
            print_named(rt, b"character ", word_at(item, 1));
            print_text(rt, b"\n");
        }
        LIGATURE => print_ligature(rt, item, word),
        _ => print_kern(rt, word_at(item, 1)),
    }
}

// The items of a word.
pub(crate) fn print_items(rt: &(impl Print + Eprint), items: &[i32], word: &[u8]) {
    for item in items.chunks_exact(6) {
        print_item(rt, item, word);
    }
}
