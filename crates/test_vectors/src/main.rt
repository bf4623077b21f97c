// Answers the requests of tools/oracle with this port. Standard input is a list of requests, one a line, and `stdout`
// beside this crate's source holds the Rust's answers to the same list, with which the gate compares what is written
// here. Where the Rust panics, and the port refuses, both write `panic` and the number of the refusal, which the oracle
// tells from the Rust's own panic. One line about a font has no answer of the Rust's: a pair of 2^102 ops, which the
// Rust would write out one by one and the port refuses at once with 14. Behind it come the requests about font files,
// F and G, whose answers are those of tools/files, then those of which a chain reaches a redirect: there the Rust was
// asked on the chains without their redirects. Then come words with letters beyond the font, and last the requests Y,
// whose lists of warnings the Rust does not take: they are answered by what it warns of and repairs.
#![tactic(auto)]

ghost use Rattle.std.specs.Prelude.{◌≡◌, length};

use file_fill::fill_front;
use lang::Written;
use test_requests::read::{line_end, numbers_of};
use test_requests::request::{front, part};
use test_requests::write::put_line;

mod of_fonts;

// Room for the requests.
fn room() -> [u8; 1048576]
    ensures { 1048576 ≡ length result }
{
    [0; 1048576]
}

// The answer to a request, by its letter.
fn answer_by(letter: u8, numbers: &[i32], out: &mut [i32]) -> Written {
    match letter {
        b'C' | b'M' | b'W' | b'A' => of_fonts::compiled(letter, numbers, out),
        b'K' | b'J' | b'P' => test_packing_answers::answer(letter, numbers, out),
        b'X' | b'Y' => test_repair_answers::answer(letter, numbers, out),
        b'F' | b'G' => test_file_answers::answer(letter, numbers, out),
        _ => test_program_answers::answer(letter, numbers, out),
    }
}

// Writes the answer to the request of a line; an empty line has none.
fn answer(rt: &impl Print, request: &[u8]) {
    if request.len() == 0 {
        return;
    }
    let letter = words::slices::item_at(request, 0);
    let mut numbers = [0i32; 16384];
    let mut out = [0i32; 32768];
    let mut line = [0u8; 65536];
    let n = numbers_of(request, &mut numbers);
    let answer = answer_by(letter, part(&numbers, 0, n), &mut out);
    let k = put_line(&mut line, letter, answer, &out);
    let _ = rt.write_all(front(&line, k));
}

// Writes the answer to each line.
fn answer_all(rt: &impl Print, text: &[u8]) {
    let mut at = 0;
    while at < text.len() {
        let end = line_end(text, at);
        answer(rt, &text[at..end]);
        at = end + 1;
    }
}

fn main(rt: HostRuntime) {
    let mut input = room();
    let got = fill_front(&mut rt.stdin(), &mut input);
    answer_all(&rt, front(&input, got));
}
