// `fontloop FILE NEWFILE`, for tools/fonts/sweep: a copy of a font file with one instruction more, which makes a loop
// at a pair of the font's own letters. Before that the font is written as it is, and compared with the file. It prints
// one line, which says what came of both.
#![tactic(auto)]

use file_font::{file_length, read_font};
use file_fonts::FileFont;
use file_load::{Loaded, args, load_file};
use lists::{first_fours, first_numbers, first_twos};
use phrase_put::bytes_before;
use std::rt::{Env, Files};

mod lists;
mod own;
mod say;

// What is said of a file.
fn answer(rt: &(impl Env + Files + Print + Eprint), file: &[u8]) {
    let mut instructions = lists::numbers();
    let mut kerns = lists::numbers();
    let mut entries = lists::entries();
    let mut lost = lists::entries();
    match read_font(file, &mut instructions, &mut kerns, &mut entries, &mut lost) {
        FileFont::Refused(number) => say::refused(rt, number),
        FileFont::Font(n, k, e, _, boundary, left, _) => own::answer(
            rt,
            file,
            first_fours(&instructions, n),
            first_numbers(&kerns, k),
            first_twos(&entries, e),
            boundary,
            left,
        ),
    }
}

// The file that the first argument names, without the zeros behind it.
fn answer_named(rt: &(impl Env + Files + Print + Eprint), name: &[u8]) {
    let mut bytes = lists::bytes();
    let loaded = load_file(rt, name, &mut bytes);
    say::words(rt, name);
    match loaded {
        Loaded::Bytes(n) => {
            let file = bytes_before(&bytes, n);
            answer(rt, bytes_before(file, file_length(file)));
        }
        _ => say::words(rt, b": refused, no file that can be read\n"),
    }
}

fn main(rt: HostRuntime) {
    if args::count(&rt) != 3 {
        say::words(
            &rt,
            b"fontloop FILE NEWFILE: writes FILE with a loop into NEWFILE\n",
        );
        return;
    }
    let mut name = [0u8; 4096];
    let n = rt.arg(1, &mut name).unwrap_or(0);
    answer_named(&rt, &name[..n]);
}
