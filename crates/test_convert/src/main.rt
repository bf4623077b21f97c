// Converts column texts with this port. Standard input is a list of texts: a line with the letter T, a text's length in
// bytes and, where it is not 65,536, how many bytes are lent for what it becomes; then its bytes. For each text a line
// with what `ligcols_convert` returned is written; where the length was given, what the text became; and then what the
// program `ligcols_convert` prints when it reads the text (R466). `stdout` beside this crate's source holds the same,
// made by tools/oracle/conversions from docs/RULES.md alone, and the gate compares the two.
#![tactic(auto)]

ghost use Rattle.std.specs.Prelude.{◌≡◌, length};

use file_fill::fill_front;
use test_requests::read::{line_end, numbers_of};
use test_requests::request::front;
use text_convert::ligcols_convert;
use text_print::print_converted;
use words::i32s::word_at;
use words::word_of;

// How long a text is, and how many bytes are lent for what it becomes.
#[derive(Drop)]
struct Head {
    size: usize,
    room: usize,
}

// Room for the texts.
fn room() -> [u8; 1048576]
    ensures { 1048576 ≡ length result }
{
    [0; 1048576]
}

// Room for what a text becomes, also for one that is lent more than the 65,536 bytes that it may have.
fn out_room() -> [u8; 70000]
    ensures { 70000 ≡ length result }
{
    [0; 70000]
}

// Room for what the program reads: a text, and one byte more.
fn read_room() -> [u8; 65537]
    ensures { 65537 ≡ length result }
{
    [0; 65537]
}

// .. and for what it prints.
fn print_room() -> [u8; 65536]
    ensures { 65536 ≡ length result }
{
    [0; 65536]
}

// The line before a text.
fn head_of(line: &[u8]) -> Head {
    let mut numbers = [0i32, 65536];
    numbers_of(line, &mut numbers);
    Head {
        size: word_at(&numbers, 0) as usize,
        room: word_at(&numbers, 1) as usize,
    }
}

// What the program reads of a text: as much as there is room for. Answers how much.
fn read_front(text: &[u8], read: &mut [u8]) -> usize {
    let n = text.len().min(read.len());
    read[..n].copy_from_slice(&text[..n]);
    n
}

// Writes what the program prints.
fn print(rt: &impl Print, text: &[u8]) {
    let mut read = read_room();
    let mut out = print_room();
    let got = read_front(text, &mut read);
    let n = print_converted(&read, got, &mut out);
    let _ = rt.write_all(front(&out, n));
}

// Writes what a text is answered with: the length of what it becomes, or minus the number; what it becomes, unless
// 65,536 bytes were lent, since that is printed; and what is printed.
fn answer(rt: &impl Print, text: &[u8], out: &mut [u8]) {
    let w = word_of(ligcols_convert(text, out));
    if w < 2147483648 {
        let _ = rt.print(w);
        let _ = rt.write_all(b"\n");
        if out.len() != 65536 {
            let _ = rt.write_all(front(out, w as usize));
        }
    } else {
        let _ = rt.write_all(b"-");
        let _ = rt.print(4294967296 - (w as u64));
        let _ = rt.write_all(b"\n");
    }
    print(rt, text);
}

// Lends n bytes, or all that there are.
fn answer_in(rt: &impl Print, text: &[u8], out: &mut [u8], n: usize) {
    if out.len() < n {
        answer(rt, text, out);
    } else {
        answer(rt, text, &mut out[..n]);
    }
}

// Answers each text, up to one that is cut short.
fn answer_all(rt: &impl Print, texts: &[u8], out: &mut [u8]) {
    let mut at = 0;
    while at < texts.len() {
        let end = line_end(texts, at);
        let h = head_of(&texts[at..end]);
        if texts.len() - end <= h.size {
            return;
        }
        let from = end + 1;
        let next = from + h.size;
        answer_in(rt, &texts[from..next], out, h.room);
        at = next;
    }
}

fn main(rt: HostRuntime) {
    let mut input = room();
    let mut out = out_room();
    let got = fill_front(&mut rt.stdin(), &mut input);
    answer_all(&rt, front(&input, got), &mut out);
}
