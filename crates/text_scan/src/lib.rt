// A column text read (R185 to R199). Its numbers go to lists that have room for as many as its limits allow; of entries
// a text of 65,536 bytes has no more than 5,040 numbers.
#![tactic(auto)]

ghost use Rattle.columns.specs.Scanned.{ReadsText};
ghost use Rattle.text_scan.specs.Standing.{Zeroed, ReadsLists};

use columns::TextHeads;
use progress::NextLine;
use whole::{first_line, read_lines};
use words::slices::zero_all;

mod lines;
mod progress;
mod whole;

fn zero_lists(
    instructions: &mut [i32; 2048],
    kerns: &mut [i32; 512],
    entries: &mut [i32; 5040],
    word: &mut [u32; 64],
)
    ensures { Zeroed instructions.new kerns.new entries.new
        word.new }
{
    zero_all(instructions);
    zero_all(kerns);
    zero_all(entries);
    zero_all(word);
}

// A text read to lists of zeros.
fn read_zeroed(
    text: &[u8],
    instructions: &mut [i32; 2048],
    kerns: &mut [i32; 512],
    entries: &mut [i32; 5040],
    word: &mut [u32; 64],
) -> Option<TextHeads>
    requires { Zeroed instructions.old kerns.old entries.old word.old }
    ensures { ReadsLists text.now instructions.new kerns.new
        entries.new word.new result }
{
    if 65536 < text.len() {
        return None;
    }
    let NextLine::At(first) = first_line(text) else {
        return None;
    };
    read_lines(text, first, instructions, kerns, entries, word)
}

// What a text says: its heads, and its numbers in the lists, with zeros after them; or none (16), and zeros.
pub fn read_text(
    text: &[u8],
    instructions: &mut [i32; 2048],
    kerns: &mut [i32; 512],
    entries: &mut [i32; 5040],
    word: &mut [u32; 64],
) -> Option<TextHeads>
    ensures { ReadsText text.now result instructions.new kerns.new
        entries.new word.new }
{
    zero_lists(instructions, kerns, entries, word);
    let read = read_zeroed(text, instructions, kerns, entries, word);
    match read {
        Some(_) => read,
        None => {
            zero_lists(instructions, kerns, entries, word);
            read
        }
    }
}
