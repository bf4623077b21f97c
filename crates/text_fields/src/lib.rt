// A field of a column text read (R186, R187): blanks, then a number. Most fields are eight blanks and at most three
// digits in the columns after them: the eight are passed at once, and those digits are read without a loop.
#![tactic(auto)]

ghost use Rattle.std.specs.Prelude.{◌≡◌};
ghost use Rattle.std.proofs.Math.Seq.{slice};
ghost use Rattle.columns.specs.Numbers.{read_field};
ghost use Rattle.columns.specs.Scanned.{field_reply, number_reply, field_at};
ghost use Rattle.text_fields.specs.Steps.{WithinText, Unblank};

use blanks::{blanks_end, eight_blanks};
use numbers::{unsigned, with_sign, without_sign};
use short::read_last;

mod blanks;
mod numbers;
mod short;

// What stands from a place on, where no blank is.
fn read_number(text: &[u8], from: usize, end: usize) -> Option<i32>
    requires { Unblank text.now from end }
    ensures { field_reply result ≡ number_reply (read_field (slice from end text.now)) }
{
    if from == end {
        return None;
    }
    if text[from] == 45 {
        return with_sign(unsigned(text, from + 1, end));
    }
    without_sign(unsigned(text, from, end))
}

// The number in a part of a field: blanks, and what stands after them.
fn read_part(text: &[u8], from: usize, end: usize) -> Option<i32>
    requires { WithinText text.now from end }
    ensures { field_reply result ≡ number_reply (read_field (slice from end text.now)) }
{
    read_number(text, blanks_end(text, from, end), end)
}

// The number in the field of 12 columns from a place on, or none (16); where the text ends before, in what is left.
pub fn read_field(text: &[u8], at: usize) -> Option<i32>
    ensures { field_reply result ≡ field_at text.now at }
{
    if text.len() <= at {
        return None;
    }
    if text.len() - at < 12 {
        return read_part(text, at, text.len());
    }
    if eight_blanks(text, at) {
        return read_last(text, at + 8, at + 12);
    }
    read_part(text, at, at + 12)
}
