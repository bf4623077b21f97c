// The program: a word set in the font of a file (TFM), an item a line. The word is of bytes, with the left boundary and
// no override. What is set is what `set_word` answers (crate word_set), over the tables that `compile` writes of the
// font that `read_font` reads.
#![tactic(auto)]

use asked::{Scale, SizeError};
use file_font::file_length;
use file_load::{Loaded, args, load_file};
use font_room::byte_room;
use phrase_put::bytes_before;
use print::print_text;
use std::rt::{Env, Files};

mod asked;
mod font;
mod items;
mod print;
mod refusals;

// The word set in the font of a file, at a scale.
fn set_in_file(rt: &(impl Files + Print + Eprint), name: &[u8], word: &[u8], scale: Scale) {
    let mut bytes = byte_room();
    match load_file(rt, name, &mut bytes) {
        Loaded::Bytes(n) => {
            let read = bytes_before(&bytes, n);
            font::set_font(rt, bytes_before(read, file_length(read)), word, scale);
        }
        Loaded::Missing => print_text(rt, b"refused: no such file\n"),
        Loaded::Unreadable(error) => refusals::print_error(rt, error),
        Loaded::TooLong => print_text(rt, b"refused: longer than 32,767 words\n"),
    }
}

// The word set as it is asked for.
fn set_as_asked(
    rt: &(impl Files + Print + Eprint),
    name: &[u8],
    word: &[u8],
    asked: Result<Scale, SizeError>,
) {
    match asked {
        Ok(scale) => set_in_file(rt, name, word, scale),
        Err(SizeError::Zero) => refusals::print_refused(rt, 19, name),
        Err(SizeError::Unreadable) => print_text(
            rt,
            b"refused: POINTS is a decimal below 2,048, and THOUSANDTHS a whole number\n",
        ),
        Err(SizeError::Unknown) => print_text(
            rt,
            b"refused: a size is asked for by at POINTS or scaled THOUSANDTHS\n",
        ),
    }
}

// The word and the file of the arguments.
fn set_arguments(rt: &(impl Env + Files + Print + Eprint), asked: Result<Scale, SizeError>) {
    let mut name = [0u8; 4096];
    let Ok(n) = rt.arg(1, &mut name) else {
        print_text(rt, b"refused: FILE has more than 4,096 bytes\n");
        return;
    };
    let mut word = [0u8; 4096];
    let Ok(m) = rt.arg(2, &mut word) else {
        print_text(rt, b"refused: WORD has more than 4,096 bytes\n");
        return;
    };
    set_as_asked(rt, &name[..n], &word[..m], asked);
}

fn main(rt: HostRuntime) {
    let none = Scale {
        size: 0,
        magnification: 0,
    };
    match args::count(&rt) {
        3 => set_arguments(&rt, Ok(none)),
        5 => set_arguments(&rt, asked::read_asked(&rt)),
        _ => print_text(
            &rt,
            b"use: setword FILE WORD [at POINTS | scaled THOUSANDTHS]  sets a word in the font of a TFM file\n",
        ),
    }
}
