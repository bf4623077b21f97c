// The answers of the port to requests about font files, with the letters of tools/files: F reads a file, G writes
// another program into one. Every list of a request or an answer is written as runs.
//   writing  G; F is crate test_file_reading
#![tactic(auto)]

ghost use Rattle.std.specs.Prelude.{◌≡◌, length};
ghost use Rattle.test_requests.specs.Answers.{CountWithin};

use crate::writing::written_file;
use lang::Written;
use test_file_reading::read_file;
use test_requests::answer::fitting;

mod writing;

fn answer_by(letter: u8, numbers: &[i32], out: &mut [i32]) -> Written {
    match letter {
        b'F' => Written::Count(read_file(numbers, out)),
        b'G' => Written::Count(written_file(numbers, out)),
        _ => Written::Refused(16),
    }
}

// The numbers of the answer to a request: first 0, or the number of a refusal. 15 where the list is too short, 16 for
// another letter.
pub fn answer(letter: u8, numbers: &[i32], out: &mut [i32]) -> Written
    ensures { CountWithin result (length out.new) }
{
    let answer = answer_by(letter, numbers, out);
    fitting(answer, out.len())
}
