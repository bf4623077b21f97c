// Answers column texts with this port. Standard input is a list of texts: a line with the letter T, a text's length in
// bytes and, where it is not 65,536, the length of the reply that is lent for it; then its bytes. For each text a line
// with what `ligcols` returned is written; where the length of the reply was given, the bytes of that reply; and then
// what the program `ligcols` prints when it reads the text (R213). Each text is then written anew without kern values
// and answered again (R467). The last line has the letter C and how many texts were answered as before, were refused
// with 16 by `ligcols_convert`, or with another number as they ought to be; and how many were not: none. `stdout`
// beside this crate's source holds the same, made by tools/oracle/texts from docs/RULES.md and the Rust's answers, and
// the gate compares the two.
#![tactic(auto)]

ghost use Rattle.std.specs.Prelude.{◌≡◌, length};

use file_fill::fill_front;
use test_requests::read::{line_end, numbers_of};
use test_requests::request::front;
use text_answer::ligcols;
use text_convert::ligcols_convert;
use text_print::print_answer;
use words::i32s::word_at;
use words::word_of;

// How long a text is, and how long a reply is lent for it.
#[derive(Drop)]
struct Head {
    size: usize,
    room: usize,
}

// How many texts that are written anew are answered as before, are 16, are refused otherwise, and are none of these.
#[derive(Drop)]
struct Counts {
    same: u32,
    sixteen: u32,
    refused: u32,
    different: u32,
}

// Room for the texts.
fn room() -> [u8; 1048576]
    ensures { 1048576 ≡ length result }
{
    [0; 1048576]
}

// Room for a reply, also for one that is lent more than the 65,536 bytes that it may have.
fn reply_room() -> [u8; 70000]
    ensures { 70000 ≡ length result }
{
    [0; 70000]
}

// Room for what the program reads: a text, and one byte more.
fn read_room() -> [u8; 65537]
    ensures { 65537 ≡ length result }
{
    [0; 65537]
}

// .. and for what it prints.
fn print_room() -> [u8; 65536]
    ensures { 65536 ≡ length result }
{
    [0; 65536]
}

// The line before a text.
fn head_of(line: &[u8]) -> Head {
    let mut numbers = [0i32, 65536];
    numbers_of(line, &mut numbers);
    Head {
        size: word_at(&numbers, 0) as usize,
        room: word_at(&numbers, 1) as usize,
    }
}

// What the program reads of a text: as much as there is room for. Answers how much.
fn read_front(text: &[u8], read: &mut [u8]) -> usize {
    let n = text.len().min(read.len());
    read[..n].copy_from_slice(&text[..n]);
    n
}

// Writes what the program prints.
fn print(rt: &impl Print, text: &[u8]) {
    let mut read = read_room();
    let mut out = print_room();
    let got = read_front(text, &mut read);
    let n = print_answer(&read, got, &mut out);
    let _ = rt.write_all(front(&out, n));
}

// The second list begins with the first.
fn begins(a: &[u8], b: &[u8]) -> bool {
    b.starts_with(a)
}

// What came of a text that `ligcols_convert` refused with z, where `ligcols` answered w: 1 for 16; 2 for the number of
// `ligcols`, or for 20 where that is of 12 to 15, since nothing is compiled (R466); 3 otherwise. All are by their bits.
fn refused_kind(z: u32, w: u32) -> u32 {
    if z == 4294967280 {
        return 1;
    }
    if z == w {
        return 2;
    }
    if z == 4294967276 && 4294967281 <= w && w <= 4294967284 {
        2
    } else {
        3
    }
}

// What comes of a text anew where w and this reply were answered before: 0 for the same, 3 otherwise.
fn compare(anew: &[u8], w: u32, reply: &[u8], again: &mut [u8]) -> u32 {
    let v = word_of(ligcols(anew, again));
    if v == w && begins(reply, again) { 0 } else { 3 }
}

// Lends the second reply n bytes, or all that there are.
fn compare_in(anew: &[u8], w: u32, reply: &[u8], again: &mut [u8], n: usize) -> u32 {
    if again.len() < n {
        compare(anew, w, reply, again)
    } else {
        compare(anew, w, reply, &mut again[..n])
    }
}

// What comes of a text that is written anew and answered again, where w and this reply were answered.
fn kind_again(text: &[u8], w: u32, reply: &[u8]) -> u32 {
    let mut anew = print_room();
    let mut again = reply_room();
    let z = word_of(ligcols_convert(text, &mut anew));
    if 2147483648 <= z {
        return refused_kind(z, w);
    }
    let n = z as usize;
    compare_in(front(&anew, n), w, reply, &mut again, reply.len())
}

// Nothing is counted yet.
fn no_counts() -> Counts {
    Counts {
        same: 0,
        sixteen: 0,
        refused: 0,
        different: 0,
    }
}

// A number and one more where two kinds are the same.
fn counted(n: u32, kind: u32, which: u32) -> u32 {
    if kind != which {
        return n;
    }
    if n < 4294967295 { n + 1 } else { n }
}

// A text more.
fn one_more(counts: Counts, kind: u32) -> Counts {
    Counts {
        same: counted(counts.same, kind, 0),
        sixteen: counted(counts.sixteen, kind, 1),
        refused: counted(counts.refused, kind, 2),
        different: counted(counts.different, kind, 3),
    }
}

// Writes a number after a blank.
fn print_count(rt: &impl Print, n: u32) {
    let _ = rt.write_all(b" ");
    let _ = rt.print(n);
}

// The last line.
fn print_counts(rt: &impl Print, counts: Counts) {
    let _ = rt.write_all(b"C");
    print_count(rt, counts.same);
    print_count(rt, counts.sixteen);
    print_count(rt, counts.refused);
    print_count(rt, counts.different);
    let _ = rt.write_all(b"\n");
}

// Writes what a text is answered with: the length of the reply, or minus the number; the reply, unless it was lent
// 65,536 bytes, since that one is printed; and what is printed. Answers what comes of it when it is written anew.
fn answer(rt: &impl Print, text: &[u8], reply: &mut [u8]) -> u32 {
    let w = word_of(ligcols(text, reply));
    if w < 2147483648 {
        let _ = rt.print(w);
        let _ = rt.write_all(b"\n");
        if reply.len() != 65536 {
            let _ = rt.write_all(front(reply, w as usize));
        }
    } else {
        let _ = rt.write_all(b"-");
        let _ = rt.print(4294967296 - (w as u64));
        let _ = rt.write_all(b"\n");
    }
    print(rt, text);
    kind_again(text, w, reply)
}

// Lends a reply of n bytes, or of all that there are.
fn answer_in(rt: &impl Print, text: &[u8], reply: &mut [u8], n: usize) -> u32 {
    if reply.len() < n {
        answer(rt, text, reply)
    } else {
        answer(rt, text, &mut reply[..n])
    }
}

// Answers each text, up to one that is cut short. Answers how many there were of each kind.
fn answer_all(rt: &impl Print, texts: &[u8], reply: &mut [u8]) -> Counts {
    let mut counts = no_counts();
    let mut at = 0;
    while at < texts.len() {
        let end = line_end(texts, at);
        let h = head_of(&texts[at..end]);
        if texts.len() - end <= h.size {
            return counts;
        }
        let from = end + 1;
        let next = from + h.size;
        counts = one_more(counts, answer_in(rt, &texts[from..next], reply, h.room));
        at = next;
    }
    counts
}

fn main(rt: HostRuntime) {
    let mut input = room();
    let mut reply = reply_room();
    let got = fill_front(&mut rt.stdin(), &mut input);
    print_counts(&rt, answer_all(&rt, front(&input, got), &mut reply));
}
