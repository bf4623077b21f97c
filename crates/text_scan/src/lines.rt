// One line read, by its letter: I, K and E to their lists, R and L to the heads. What is past a limit has no place in
// its list.
ghost use Rattle.std.specs.Prelude.{◌≡◌, ◌+◌, ◌-◌, ◌≤◌, get_or, drop};
ghost use Rattle.text_scan.specs.Following.{numbers_in};
ghost use Rattle.text_scan.specs.Standing.{Scanning, Before, TakesLine, Goes, past_instruction, past_kern};
ghost use Rattle.text_scan.specs.Standing.{past_entry, past_boundary, past_left, head_line};

use crate::progress::{NextLine, TextProgress};
use text_line_numbers::{read_number, read_numbers};
use words::word_of;

// I: four numbers.
fn instruction_line(text: &[u8], p: TextProgress, instructions: &mut [i32; 2048]) -> NextLine
    requires before { Before text.now p }
    requires instructions_bound { p.instructions ≤ 2048 }
    ensures { TakesLine (numbers_in (2048 - p.instructions) 4 (drop (p.at + 1) text.now))
        (past_instruction p) instructions.old p.instructions result instructions.new }
{
    if !read_numbers(text, p.at + 1, 4, instructions, p.instructions) {
        return NextLine::Unreadable;
    }
    let mut q = p;
    q.at = p.at + 50;
    q.instructions = p.instructions + 4;
    NextLine::At(q)
}

// K: one.
fn kern_line(text: &[u8], p: TextProgress, kerns: &mut [i32; 512]) -> NextLine
    requires before { Before text.now p }
    requires kerns_bound { p.kerns ≤ 512 }
    ensures { TakesLine (numbers_in (512 - p.kerns) 1 (drop (p.at + 1) text.now))
        (past_kern p) kerns.old p.kerns result kerns.new }
{
    if !read_numbers(text, p.at + 1, 1, kerns, p.kerns) {
        return NextLine::Unreadable;
    }
    let mut q = p;
    q.at = p.at + 14;
    q.kerns = p.kerns + 1;
    NextLine::At(q)
}

// E: two.
fn entry_line(text: &[u8], p: TextProgress, entries: &mut [i32; 5040]) -> NextLine
    requires before { Before text.now p }
    requires entries_bound { p.entries ≤ 5040 }
    ensures { TakesLine (numbers_in (5040 - p.entries) 2 (drop (p.at + 1) text.now))
        (past_entry p) entries.old p.entries result entries.new }
{
    if !read_numbers(text, p.at + 1, 2, entries, p.entries) {
        return NextLine::Unreadable;
    }
    let mut q = p;
    q.at = p.at + 26;
    q.entries = p.entries + 2;
    NextLine::At(q)
}

// R: one, once.
fn boundary_line(text: &[u8], p: TextProgress) -> NextLine
    requires { Before text.now p }
    ensures { result ≡ head_line text.now p p.bounded (past_boundary p) }
{
    if p.bounded {
        return NextLine::Unreadable;
    }
    let Some(z) = read_number(text, p.at + 1) else {
        return NextLine::Unreadable;
    };
    let mut q = p;
    q.at = p.at + 14;
    q.boundary = word_of(z);
    q.bounded = true;
    NextLine::At(q)
}

// L: one, once.
fn left_line(text: &[u8], p: TextProgress) -> NextLine
    requires { Before text.now p }
    ensures { result ≡ head_line text.now p p.entered (past_left p) }
{
    if p.entered {
        return NextLine::Unreadable;
    }
    let Some(z) = read_number(text, p.at + 1) else {
        return NextLine::Unreadable;
    };
    let mut q = p;
    q.at = p.at + 14;
    q.left = word_of(z);
    q.entered = true;
    NextLine::At(q)
}

// The line at which reading stands, if it is none of D and W.
pub(crate) fn next_line(
    text: &[u8],
    p: TextProgress,
    instructions: &mut [i32; 2048],
    kerns: &mut [i32; 512],
    entries: &mut [i32; 5040],
) -> NextLine
    requires before { (Before text.now p) × (get_or text.now p.at 0 ≡ 87 → ⊥) }
    requires scanning { Scanning text.now p instructions.old kerns.old entries.old }
    ensures { Goes text.now p instructions.new kerns.new
        entries.new result }
{
    let at = p.at;
    let letter = text[at];
    if letter == 73 {
        return instruction_line(text, p, instructions);
    }
    if letter == 75 {
        return kern_line(text, p, kerns);
    }
    if letter == 69 {
        return entry_line(text, p, entries);
    }
    if letter == 82 {
        return boundary_line(text, p);
    }
    if letter == 76 {
        return left_line(text, p);
    }
    NextLine::Unreadable
}
