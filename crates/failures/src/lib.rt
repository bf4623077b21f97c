// Why a call of the system failed, told on standard error in the system's own words.
#![tactic(auto)]

ghost use Rattle.std.specs.Prelude.{◌≤◌, length};

use std::fmt::Display;
use std::io::{self, Write};

// What std puts between the words and their number.
const BEHIND: &str = " (os error ";

// What std says of an error, put at the front of a list. Answers how many bytes it has.
fn put_error(text: &mut [u8], error: io::Error) -> usize
    ensures { result ≤ length text.new }
{
    let room = text.len();
    let mut rest: &mut [u8] = text;
    let _ = write!(rest, "{error}");
    room.saturating_sub(rest.len())
}

// What stands before the number; all where there is none.
fn words_of(said: &str) -> &str {
    match said.split_once(BEHIND) {
        Some((words, _)) => words,
        None => said,
    }
}

// Writes a line to standard error: what failed, as the caller names it, a colon and why.
pub fn tell<R: Eprint, D: Display + Drop>(rt: &R, what: D, error: io::Error) {
    let mut text = [0u8; 256];
    let n = put_error(&mut text, error);
    let said = str::from_utf8(&text[..n]).unwrap_or("");
    let words = words_of(said);
    let _ = rt.eprintln(format_args!("{what}: {words}"));
}
