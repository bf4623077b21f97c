// The answers of the port to requests about a pair table, with the letters of tools/oracle: W in runs, A in questions.
#![tactic(auto)]

ghost use Rattle.std.specs.Prelude.{length};
ghost use Rattle.test_requests.specs.Answers.{CountWithin};

use lang::Written;
use test_requests::answer::fitting;

mod letters;
mod questions;
mod room;
mod runs;

fn answer_by(letter: u8, numbers: &[i32], pairs: &[i32], ops: &[i32], out: &mut [i32]) -> Written {
    match letter {
        b'W' => runs::word_set(numbers, pairs, ops, out),
        b'A' => questions::replaced(numbers, pairs, ops, out),
        _ => Written::Refused(16),
    }
}

// The numbers of the answer to a request, whose font has these pairs and ops, or the number of its refusal: 15 where
// the list is too short, 16 for another letter.
pub fn answer(letter: u8, numbers: &[i32], pairs: &[i32], ops: &[i32], out: &mut [i32]) -> Written
    ensures { CountWithin result (length out.new) }
{
    let answer = answer_by(letter, numbers, pairs, ops, out);
    fitting(answer, out.len())
}
