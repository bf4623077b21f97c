// The lines of a column text written anew (R464): a line that begins with I has the numbers of the next instruction,
// the lines of what is added stand before the line that begins with W, or at the end, and any other line stays.
#![tactic(auto)]

ghost use Rattle.std.specs.Prelude.{◌≡◌, [], ◌∷◌, ◌++◌, ◌*◌, ◌≤◌, length, take, drop};
ghost use Rattle.columns.specs.Converting.{instruction_line, kern_lines};
ghost use Rattle.columns.specs.Lines.{lines_of, text_of};
ghost use Rattle.text_convert_lines.specs.Anew.{line_length, is_whole_lines, is_before_word, instructions_in};
ghost use Rattle.text_convert_lines.specs.Anew.{line_anew};
ghost use Rattle.text_convert_lines.specs.Anew.{lines_anew, PutsNext, PutsEnd, PutsAnew};

use pl_put::bytes::put_bytes;
use text_lines::put_lines;
use words::slices::{item_at, zero_all};

// A text is lines: nothing stands after the last line feed.
fn is_whole_lines(text: &[u8]) -> bool
    ensures { result ≡ is_whole_lines text.now }
{
    if text.len() == 0 {
        return true;
    }
    text[text.len() - 1] == 10
}

// How long the first line is, with its line feed.
fn line_length(text: &[u8]) -> usize
    ensures { result ≡ line_length text.now }
{
    for (n, b) in text.iter().enumerate() {
        if *b == 10 {
            return n + 1;
        }
    }
    text.len()
}

// A line begins at a place, and it is not W's.
fn is_before_word(text: &[u8], at: usize) -> bool
    ensures { result ≡ is_before_word text.now at }
{
    if at < text.len() {
        text[at] != 87
    } else {
        false
    }
}

// 1 where the line that begins at a place is I's.
fn instructions_in(text: &[u8], at: usize) -> usize
    ensures { result ≡ instructions_in text.now at }
{
    if item_at(text, at) == 73 { 1 } else { 0 }
}

// The line of instruction i. Answers the place after it; the place behind the end where there is no room.
fn put_instruction(instructions: &[i32], i: usize, out: &mut [u8], to: usize) -> usize
    requires { (50 * i ≤ to) × (to ≤ length out.old) }
    ensures { PutsNext (instruction_line instructions.now i ++ (10 ∷ [])) out.old to result
        out.new }
{
    let next = put_lines(73, instructions, i, 1, 4, out, to);
    if next == to {
        return out.len() + 1;
    }
    next
}

// The first line of a text, n bytes, anew. Answers the place after it; the place behind the end where there is no room.
fn put_next(
    text: &[u8],
    n: usize,
    instructions: &[i32],
    i: usize,
    out: &mut [u8],
    to: usize,
) -> usize
    requires { (n ≤ length text.now) × (50 * i ≤ to) × (to ≤ length out.old) }
    ensures { PutsNext (line_anew instructions.now i text.now n) out.old to result
        out.new }
{
    if instructions_in(text, 0) == 1 {
        return put_instruction(instructions, i, out, to);
    }
    put_bytes(out, to, &text[..n])
}

// The lines of what is added, and the rest of the text. Answers the place after them; 0, with zeros, where there is no
// room.
fn put_end(text: &[u8], added: &[i32], out: &mut [u8], to: usize) -> usize
    requires { to ≤ length out.old }
    ensures { PutsEnd (text_of (kern_lines added.now) ++ text.now) out.old to result
        out.new }
{
    let room = out.len() - to;
    if room < text.len() || (room - text.len()) / 14 < added.len() {
        zero_all(out);
        return 0;
    }
    let next = put_lines(75, added, 0, added.len(), 1, out, to);
    put_bytes(out, next, text)
}

// A text anew, with zeros after it. Answers how long it is; 0, with zeros, where there is no room or the text is no
// lines.
pub fn put_converted(text: &[u8], instructions: &[i32], added: &[i32], out: &mut [u8]) -> usize
    ensures { PutsAnew (lines_anew instructions.now added.now (lines_of text.now))
        out.old result out.new }
{
    zero_all(out);
    if !is_whole_lines(text) {
        return 0;
    }
    let mut at = 0;
    let mut to = 0;
    let mut i = 0;
    while is_before_word(text, at) {
        let n = line_length(&text[at..]);
        to = put_next(&text[at..], n, instructions, i, out, to);
        if out.len() < to {
            zero_all(out);
            return 0;
        }
        i += instructions_in(text, at);
        at += n;
    }
    put_end(&text[at..], added, out, to)
}
