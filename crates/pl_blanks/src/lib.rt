// Blanks of a property list, and everything up to a parenthesis (R450; PLtoTF 28, 34).
#![tactic(auto)]

ghost use Rattle.std.specs.Prelude.{◌≡◌, false, ◌≤◌, length, drop};
ghost use Rattle.property_lists.specs.Chars.{is_passed, unless_held, pass_over, past_blanks, to_paren, Passes};

use pl_bytes::is_visible;

// A byte that is passed over: a blank, or with `all` any character but parentheses.
fn is_passed(all: bool, held: bool, b: u8) -> bool
    ensures { result ≡ is_passed all held b }
{
    if b == 10 {
        return true;
    }
    if b == 13 {
        return true;
    }
    if held {
        return false;
    }
    if b == 32 {
        return true;
    }
    if all {
        return is_visible(b);
    }
    false
}

// Where passing over ends: nowhere after a carriage return.
fn unless_held(text: &[u8], held: bool, i: usize) -> Option<usize>
    requires { i ≤ length text.now }
    ensures { Passes (unless_held held (drop i text.now)) text.now i 0 result }
{
    if held { None } else { Some(i) }
}

// Blanks passed over; with `all` everything up to a parenthesis.
fn pass_over(text: &[u8], at: usize, all: bool) -> Option<usize>
    ensures { Passes (pass_over all false (drop at text.now)) text.now at 0 result }
{
    let mut held = false;
    for i in at..text.len() {
        let b = text[i];
        if !is_passed(all, held, b) {
            return unless_held(text, held, i);
        }
        held = b == 13;
    }
    unless_held(text, held, text.len())
}

// Blanks passed over.
pub fn past_blanks(text: &[u8], at: usize) -> Option<usize>
    ensures { Passes (past_blanks (drop at text.now)) text.now at 0 result }
{
    pass_over(text, at, false)
}

// Everything up to a parenthesis passed over.
pub fn to_paren(text: &[u8], at: usize) -> Option<usize>
    ensures { Passes (to_paren (drop at text.now)) text.now at 0 result }
{
    pass_over(text, at, true)
}
