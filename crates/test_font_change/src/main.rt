// A host that asks for fonts, starts words and makes steps, each line with fonts of its own; it writes what every call
// answers and the fonts in force and asked for after it. What is due was made by tools/change, from the rules and not
// from this program, and the gate compares.
#![tactic(auto)]

ghost use Rattle.std.specs.Prelude.{◌≡◌, length};

use file_fill::fill_front;
use test_requests::read::{line_end, numbers_of};
use test_requests::request::{front, part};

// Room for the lines.
fn room() -> [u8; 262144]
    ensures { 262144 ≡ length result }
{
    [0; 262144]
}

fn answer(rt: &impl Print, line: &[u8]) {
    let mut numbers = [0i32; 16384];
    let n = numbers_of(line, &mut numbers);
    test_font_acts::answer(rt, part(&numbers, 0, n));
}

fn answer_all(rt: &impl Print, text: &[u8]) {
    let mut at = 0;
    while at < text.len() {
        let end = line_end(text, at);
        answer(rt, &text[at..end]);
        at = end + 1;
    }
}

fn main(rt: HostRuntime) {
    let mut input = room();
    let got = fill_front(&mut rt.stdin(), &mut input);
    answer_all(&rt, front(&input, got));
}
