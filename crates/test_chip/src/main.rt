// Drives the caption chip through lists of commands, each on a table of its own, and writes what every command answers
// and leaves in the block; and before each what `step` gives from the chip's state. A line of K has callers, whose
// words the program counts itself. What is due was made by tools/chip, from the rules and not from this program, and
// the gate compares.
#![tactic(auto)]

ghost use Rattle.std.specs.Prelude.{◌≡◌, length};

use file_fill::fill_front;
use test_requests::read::{line_end, numbers_of};
use test_requests::request::{front, part};
use words::slices::item_at;

mod scenario;

// Room for the lines.
fn room() -> [u8; 262144]
    ensures { 262144 ≡ length result }
{
    [0; 262144]
}

fn answer(rt: &impl Print, line: &[u8]) {
    let mut numbers = [0i32; 16384];
    let n = numbers_of(line, &mut numbers);
    if item_at(line, 0) == b'K' {
        scenario::answer_callers(rt, part(&numbers, 0, n));
        return;
    }
    scenario::answer(rt, part(&numbers, 0, n));
}

fn answer_all(rt: &impl Print, text: &[u8]) {
    let mut at = 0;
    while at < text.len() {
        let end = line_end(text, at);
        answer(rt, &text[at..end]);
        at = end + 1;
    }
}

fn main(rt: HostRuntime) {
    let mut input = room();
    let got = fill_front(&mut rt.stdin(), &mut input);
    answer_all(&rt, front(&input, got));
}
