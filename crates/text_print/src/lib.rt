// What the programs `ligcols` and `ligcols_convert` print (R213, R466) for what they read of standard input: the reply,
// or the text anew; or one line with N and the number. Crates `text_answer` and `text_convert` answer. The types of
// both lists fix their lengths: one byte more is read than a text may have, so that a longer one is seen (R197), and
// there is room for every reply (R204).
#![tactic(auto)]

ghost use Rattle.std.specs.Prelude.{◌≡◌, ◌≤◌, length, take};
ghost use Rattle.text_print.specs.Printing.{IsAnswer, PrintsNumber, Prints, PrintsConverted};

use text_answer::ligcols;
use text_convert::ligcols_convert;
use text_lines::put_lines;
use words::{number_of, word_of};

// The first n bytes, or all where there are fewer.
pub fn front(bytes: &[u8], n: usize) -> &[u8]
    ensures { result.now ≡ take n bytes.now }
{
    if bytes.len() < n {
        return bytes;
    }
    &bytes[..n]
}

// What is printed for an answer: what stands there where it is a length; over the zeros of a refusal, the line N and
// its number. Answers how many bytes are printed.
fn print_number(answer: i32, out: &mut [u8]) -> usize
    requires { (14 ≤ length out.old) × IsAnswer answer }
    ensures { PrintsNumber answer out.old result out.new }
{
    let w = word_of(answer);
    if w < 2147483648 {
        return w as usize;
    }
    let numbers = [number_of(4294967295 - w + 1)];
    put_lines(78, &numbers, 0, 1, 1, out, 0)
}

// What is printed for a text, the first `got` bytes that were read, and zeros after it. Answers how many bytes are
// printed.
pub fn print_answer(read: &[u8; 65537], got: usize, out: &mut [u8; 65536]) -> usize
    ensures { Prints read.now got result out.new }
{
    let answer = ligcols(front(read, got), out);
    print_number(answer, out)
}

// The same for a text that is written anew.
pub fn print_converted(read: &[u8; 65537], got: usize, out: &mut [u8; 65536]) -> usize
    ensures { PrintsConverted read.now got result out.new }
{
    let answer = ligcols_convert(front(read, got), out);
    print_number(answer, out)
}
