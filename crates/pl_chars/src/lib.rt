// Comments, single characters and names of a property list (R451, R452; PLtoTF 31, 33, 35, 49).
#![tactic(auto)]

ghost use Rattle.std.specs.Prelude.{◌≡◌, ◌≤◌, length, drop};
ghost use Rattle.property_lists.specs.Chars.{in_name, past_comment, past_byte, past_end, name_ends, past_name, Passes};

use pl_blanks::past_blanks;
use pl_bytes::{is_capital, is_figure, upper_case};

// The rest of a comment.
pub fn past_comment(text: &[u8], at: usize) -> Option<usize>
    ensures { Passes (past_comment 0 (drop at text.now)) text.now at 1 result }
{
    let mut depth: usize = 0;
    for i in at..text.len() {
        let b = text[i];
        if b == 41 {
            if depth == 0 {
                return Some(i + 1);
            }
            depth -= 1;
        } else {
            if b == 40 {
                depth += 1;
            }
        }
    }
    None
}

// One byte.
pub fn past_byte(text: &[u8], at: usize, a: u8) -> Option<usize>
    ensures { Passes (past_byte a (drop at text.now)) text.now at 1 result }
{
    if at < text.len() {
        if text[at] == a {
            return Some(at + 1);
        }
    }
    None
}

// The end of a property.
pub fn past_end(text: &[u8], at: usize) -> Option<usize>
    ensures { Passes (past_end (drop at text.now)) text.now at 1 result }
{
    let i = past_blanks(text, at)?;
    past_byte(text, i, 41)
}

// A character of a name.
fn in_name(b: u8) -> bool
    ensures { result ≡ in_name b }
{
    if b == 47 {
        return true;
    }
    if b == 62 {
        return true;
    }
    if is_figure(b) {
        return true;
    }
    is_capital(upper_case(b))
}

// No more characters of a name.
fn name_ends(text: &[u8], at: usize) -> Option<usize>
    requires { at ≤ length text.now }
    ensures { Passes (name_ends (drop at text.now)) text.now at 0 result }
{
    if at < text.len() {
        if in_name(text[at]) {
            return None;
        }
    }
    Some(at)
}

// A name.
pub fn past_name(text: &[u8], at: usize, name: &[u8]) -> Option<usize>
    ensures { Passes (past_name name.now (drop at text.now)) text.now at
        (length name.now) result }
{
    let first = at.min(text.len());
    for (k, letter) in name.iter().enumerate() {
        if text.len() <= first + k {
            return None;
        }
        if upper_case(text[first + k]) != *letter {
            return None;
        }
    }
    name_ends(text, first + name.len())
}
