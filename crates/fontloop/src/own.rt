// The font as it was before packing, written back into its file: as it is, and with one instruction more, which makes a
// loop.
use crate::lists::{first_fours, first_numbers};
use crate::{lists, say};
use failures::tell;
use file_writing::replace_lig_kern_program;
use font_unpack::unpacked_font;
use font_unpackings::UnpackedFont;
use lang::Written;
use phrase_put::bytes_before;
use std::fs::File;
use std::io::{self, Write};
use std::rt::{Env, Files};
use words::i32s::{put_word, word_at};

// What came of a font that was written: its file is the old one, or saved; it is another, or not saved; or the number
// of its refusal.
#[derive(Drop)]
enum Done {
    Yes,
    No,
    Refused(u32),
}

// What std does not open: a name that is not UTF-8.
const EILSEQ: i32 = 84;

// Makes a file of a name; one that is there already stays as it is.
fn create<R: Files>(rt: &R, name: &[u8]) -> io::Result<R::File> {
    match str::from_utf8(name) {
        Ok(path) => File::create_new(rt, path),
        Err(_) => Err(io::Error::from_raw_os_error(EILSEQ)),
    }
}

// Makes the file that the second argument names, and writes it.
fn is_saved<R: Env + Files + Eprint>(rt: &R, bytes: &[u8]) -> bool {
    let mut name = [0u8; 4096];
    let n = rt.arg(2, &mut name).unwrap_or(0);
    match create(rt, &name[..n]) {
        Ok(mut file) => file.write_all(bytes).is_ok(),
        Err(error) => {
            tell(rt, "fontloop: the copy can't be made", error);
            false
        }
    }
}

// What was written is saved, or compared with the file.
fn done_with(rt: &(impl Env + Files + Eprint), bytes: &[u8], file: &[u8], is_copy: bool) -> Done {
    let is_done = if is_copy {
        is_saved(rt, bytes)
    } else {
        bytes == file
    };
    if is_done { Done::Yes } else { Done::No }
}

// The font, written into its file.
fn written(
    rt: &(impl Env + Files + Eprint),
    file: &[u8],
    program: &[i32],
    kerns: &[i32],
    entries: &[i32],
    boundary: i32,
    left: i32,
    is_copy: bool,
) -> Done {
    let mut out = lists::bytes();
    match replace_lig_kern_program(file, program, kerns, entries, boundary, left, &mut out) {
        Written::Refused(number) => Done::Refused(number),
        Written::Count(n) => done_with(rt, bytes_before(&out, n), file, is_copy),
    }
}

// Prints whether the font gave the file's own words. Answers whether it was written.
fn tell_words(rt: &impl Print, done: Done) -> bool {
    match done {
        Done::Yes => say::words(rt, b": same words"),
        Done::No => say::words(rt, b": other words"),
        Done::Refused(number) => {
            say::refused(rt, number);
            return false;
        }
    }
    true
}

// Prints what came of the copy.
fn tell_copy(rt: &impl Print, done: Done, first: u32, last: u32) {
    match done {
        Done::Yes => say::pair(rt, first, last),
        Done::Refused(number) => say::refused(rt, number),
        _ => say::words(rt, b"; no copy\n"),
    }
}

// One instruction more, behind the n of the font: before the last letter that has an entry the first one becomes itself
// again, and the cursor stays. The first letter's entry leads there.
fn add_loop(program: &mut [i32], n: usize, entries: &mut [i32], first: u32, last: u32) {
    let at = n.min(32767);
    put_word(program, 4 * at, 4294967295);
    put_word(program, 4 * at + 1, last);
    put_word(program, 4 * at + 2, 2);
    put_word(program, 4 * at + 3, 256 + first % 256);
    put_word(entries, 1, at as u32);
}

// Both writings, of a font of n instructions and entries of e numbers.
fn write_both(
    rt: &(impl Env + Files + Print + Eprint),
    file: &[u8],
    program: &mut [i32],
    n: usize,
    kerns: &[i32],
    entries: &mut [i32],
    e: usize,
    boundary: i32,
    left: i32,
) {
    let own = written(
        rt,
        file,
        first_fours(program, n),
        kerns,
        first_numbers(entries, e),
        boundary,
        left,
        false,
    );
    if !tell_words(rt, own) {
        return;
    }
    let first = word_at(entries, 0);
    let last = word_at(entries, e.saturating_sub(2));
    add_loop(program, n, entries, first, last);
    let more = n.min(32767) + 1;
    let copy = written(
        rt,
        file,
        first_fours(program, more),
        kerns,
        first_numbers(entries, e),
        boundary,
        left,
        true,
    );
    tell_copy(rt, copy, first, last);
}

// What is to be said of a font that was read.
pub(crate) fn answer(
    rt: &(impl Env + Files + Print + Eprint),
    file: &[u8],
    instructions: &[i32],
    kerns: &[i32],
    entries: &[i32],
    boundary: i32,
    left: i32,
) {
    let mut program = lists::numbers();
    let mut moved = lists::entries();
    match unpacked_font(instructions, entries, left, &mut program, &mut moved) {
        UnpackedFont::Refused(number) => say::refused(rt, number),
        UnpackedFont::Kept => say::words(rt, b": kept, a redirect stands elsewhere\n"),
        UnpackedFont::Own(_, n, own_left) => {
            if entries.len() == 0 {
                say::words(rt, b": no program\n");
                return;
            }
            write_both(
                rt,
                file,
                &mut program,
                n,
                kerns,
                &mut moved,
                entries.len(),
                boundary,
                own_left,
            )
        }
    }
}
