// Writes fonts as property lists, each into as many bytes as its line says, and prints the length and the text, or the
// number of the refusal. What is due was made by tools/oracle/displays, by TFtoPL's own way to find decimals, and the
// gate compares.
#![tactic(auto)]

ghost use Rattle.std.specs.Prelude.{◌≡◌, length};

use file_fill::fill_front;
use lang::Written;
use pl_write::display;
use test_requests::read::{line_end, numbers_of};
use test_requests::request::{
    entries_of, from_end, front, instructions_of, kerns_of, number_at, part, rest,
};
use test_requests::write::put_line;

// Room for the lines.
fn room() -> [u8; 131072]
    ensures { 131072 ≡ length result }
{
    [0; 131072]
}

// Room for a text: bytes that are not zero before it is written.
fn text_room() -> [u8; 65536]
    ensures { 65536 ≡ length result }
{
    [170; 65536]
}

// The length and the text, or the number of a refusal.
fn print(rt: &impl Print, written: Written, text: &[u8]) {
    let mut line = [0u8; 64];
    match written {
        Written::Refused(n) => {
            let k = put_line(&mut line, b'D', Written::Refused(n), &[]);
            let _ = rt.write_all(front(&line, k));
        }
        Written::Count(n) => {
            let count = [(n % 2147483648) as i32];
            let k = put_line(&mut line, b'D', Written::Count(1), &count);
            let _ = rt.write_all(front(&line, k));
            let _ = rt.write_all(front(text, n));
        }
    }
}

// How many bytes are lent of a text, and a font.
fn answer_font(rt: &impl Print, numbers: &[i32], text: &mut [u8]) {
    let font = rest(numbers, 1);
    let end = from_end(font, 2);
    let n = (words::i32s::word_at(numbers, 0) as usize).min(text.len());
    let written = display(
        instructions_of(font),
        kerns_of(font),
        entries_of(font),
        number_at(font, end),
        number_at(font, from_end(font, 1)),
        &mut text[..n],
    );
    print(rt, written, text);
}

fn answer(rt: &impl Print, line: &[u8]) {
    let mut numbers = [0i32; 4096];
    let mut text = text_room();
    let n = numbers_of(line, &mut numbers);
    answer_font(rt, part(&numbers, 0, n), &mut text);
}

fn answer_all(rt: &impl Print, text: &[u8]) {
    let mut at = 0;
    while at < text.len() {
        let end = line_end(text, at);
        answer(rt, &text[at..end]);
        at = end + 1;
    }
}

fn main(rt: HostRuntime) {
    let mut input = room();
    let got = fill_front(&mut rt.stdin(), &mut input);
    answer_all(&rt, front(&input, got));
}
