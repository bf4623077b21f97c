// Reads texts as property lists, each into lists of as many places as its line says, and prints the font, or the number
// of the refusal, and the lists. What is due was made by tools/oracle/sources, by PLtoTF's own way of reading, and the
// gate compares.
#![tactic(auto)]

ghost use Rattle.std.specs.Prelude.{◌≡◌, ◌≤◌, length};

use file_fill::fill_front;
use lang::Written;
use pl_share::from_pl_source_code;
use property_lists::Listed;
use test_requests::answer::{put_count, put_list, put_one};
use test_requests::read::{line_end, numbers_of};
use test_requests::request::{front, part};
use test_requests::write::put_line;
use words::i32s::word_at;
use words::slices::{item_at, put_item};
use words::word_of;

// Room for the texts.
fn room() -> [u8; 131072]
    ensures { 131072 ≡ length result }
{
    [0; 131072]
}

// The place of the tilde from `at` on, or the end where there is none.
fn text_end(text: &[u8], at: usize) -> usize
    ensures { at ≤ length text.now → (at ≤ result) × (result ≤ length text.now) }
{
    for i in at..text.len() {
        if text[i] == b'~' {
            return i;
        }
    }
    at.max(text.len())
}

// The numbers of an answer. The place after them.
fn put_listed(out: &mut [i32], listed: Listed) -> usize {
    match listed {
        Listed::Refused(n) => put_one(out, 0, n),
        Listed::Font(n, _, e, boundary, left) => {
            let a = put_one(out, 0, 0);
            let b = put_count(out, a, n);
            let c = put_count(out, b, e);
            let d = put_one(out, c, word_of(boundary));
            put_one(out, d, word_of(left))
        }
    }
}

// How many kerns there are, and their list, where it has a place. The place after them.
fn put_kerns(out: &mut [i32], at: usize, listed: Listed, kerns: &[i32]) -> usize {
    if kerns.is_empty() {
        return at;
    }
    match listed {
        Listed::Refused(_) => put_list(out, at, kerns),
        Listed::Font(_, k, _, _, _) => {
            let a = put_count(out, at, k);
            put_list(out, a, kerns)
        }
    }
}

// An answer and the lists.
fn print(rt: &impl Print, listed: Listed, instructions: &[i32], kerns: &[i32], entries: &[i32]) {
    let mut numbers = [0i32; 1024];
    let a = put_listed(&mut numbers, listed);
    let b = put_list(&mut numbers, a, instructions);
    let c = put_list(&mut numbers, b, entries);
    let d = put_kerns(&mut numbers, c, listed, kerns);
    let mut line = [0u8; 8192];
    let k = put_line(&mut line, b'S', Written::Count(d), &numbers);
    let _ = rt.write_all(front(&line, k));
}

// A text, to so many places of three lists.
fn read_within(
    rt: &impl Print,
    text: &[u8],
    rooms: &[i32],
    instructions: &mut [i32],
    kerns: &mut [i32],
    entries: &mut [i32],
) {
    let n = (word_at(rooms, 0) as usize).min(instructions.len());
    let e = (word_at(rooms, 1) as usize).min(entries.len());
    let k = (word_at(rooms, 2) as usize).min(kerns.len());
    let listed = from_pl_source_code(
        text,
        &mut instructions[..n],
        &mut kerns[..k],
        &mut entries[..e],
    );
    print(
        rt,
        listed,
        part(instructions, 0, n),
        part(kerns, 0, k),
        part(entries, 0, e),
    );
}

// Room for a text that is stretched.
fn long_room() -> [u8; 300000]
    ensures { 300000 ≡ length result }
{
    [0; 300000]
}

// The first ten bytes of a text, those after them over and over, and a parenthesis at the end: m bytes.
fn stretch(text: &[u8], m: usize, out: &mut [u8]) {
    let rest = text.len().saturating_sub(10);
    if rest == 0 {
        return;
    }
    for k in 0..m {
        put_item(
            out,
            k,
            item_at(text, k.min(10) + k.saturating_sub(10) % rest),
        );
    }
    put_item(out, m.saturating_sub(1), b')');
}

// A text stretched to so many bytes.
fn read_stretched(
    rt: &impl Print,
    text: &[u8],
    bytes: usize,
    rooms: &[i32],
    instructions: &mut [i32],
    kerns: &mut [i32],
    entries: &mut [i32],
) {
    let mut long = long_room();
    stretch(text, bytes, &mut long);
    read_within(rt, front(&long, bytes), rooms, instructions, kerns, entries);
}

// The lists have numbers that are not 0 before a text is read.
fn answer(rt: &impl Print, header: &[u8], text: &[u8]) {
    let mut rooms = [0i32; 4];
    numbers_of(header, &mut rooms);
    let mut instructions = [-7i32; 640];
    let mut kerns = [-7i32; 160];
    let mut entries = [-7i32; 64];
    let bytes = word_at(&rooms, 3) as usize;
    if bytes == 0 {
        read_within(
            rt,
            text,
            &rooms,
            &mut instructions,
            &mut kerns,
            &mut entries,
        );
        return;
    }
    read_stretched(
        rt,
        text,
        bytes,
        &rooms,
        &mut instructions,
        &mut kerns,
        &mut entries,
    );
}

fn answer_all(rt: &impl Print, text: &[u8]) {
    let mut at = 0;
    while at < text.len() {
        let body = line_end(text, at);
        let from = (body + 1).min(text.len());
        let end = text_end(text, from);
        answer(rt, &text[at..body], &text[from..end]);
        at = end + 2;
    }
}

fn main(rt: HostRuntime) {
    let mut input = room();
    let got = fill_front(&mut rt.stdin(), &mut input);
    answer_all(&rt, front(&input, got));
}
