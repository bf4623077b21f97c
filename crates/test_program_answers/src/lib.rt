// The answers of the port to requests about numbers and programs, with the letters of tools/oracle: S, Z, O and V in
// numbers, I, U, B and R in programs. A request has at most 16,384 numbers, so a program at most 4,096 instructions.
#![tactic(auto)]

ghost use Rattle.std.specs.Prelude.{length};
ghost use Rattle.test_requests.specs.Answers.{CountWithin};

use lang::Written;
use test_requests::answer::fitting;

mod numbers;
mod programs;
mod room;

fn answer_by(letter: u8, numbers: &[i32], out: &mut [i32]) -> Written {
    match letter {
        b'S' => numbers::scaled(numbers, out),
        b'Z' => numbers::scaled_at(numbers, out),
        b'O' => numbers::operation(numbers, out),
        b'V' => numbers::seven_bit(numbers, out),
        b'I' => programs::chain_from(numbers, out),
        b'U' => programs::unpacked(numbers, out),
        b'B' => programs::seven_bit_safe(numbers, out),
        b'R' => programs::reached(numbers, out),
        _ => Written::Refused(16),
    }
}

// The numbers of the answer to a request, or the number of its refusal: 15 where the list is too short, 16 for another
// letter.
pub fn answer(letter: u8, numbers: &[i32], out: &mut [i32]) -> Written
    ensures { CountWithin result (length out.new) }
{
    let answer = answer_by(letter, numbers, out);
    fitting(answer, out.len())
}
