// A whole text read: D, which comes first, lines in any order, and W, after which nothing comes.
ghost use Rattle.std.specs.Prelude.{◌≡◌, ◌+◌, ◌≤◌, length, drop};
ghost use Rattle.text_scan.specs.Following.{word_on};
ghost use Rattle.text_scan.specs.Standing.{zeros, Scanning, Before, Opens, EndsWord, ReadsLists};

use crate::lines::next_line;
use crate::progress::{NextLine, TextProgress, heads_of};
use columns::TextHeads;
use text_line_numbers::{read_letters, read_number};
use words::slices::item_at;
use words::word_of;

// D: one number.
pub(crate) fn first_line(text: &[u8]) -> NextLine
    requires { length text.now ≤ 65536 }
    ensures { Opens text.now result }
{
    if item_at(text, 0) != 68 {
        return NextLine::Unreadable;
    }
    let Some(z) = read_number(text, 1) else {
        return NextLine::Unreadable;
    };
    NextLine::At(TextProgress {
        at: 14,
        design: word_of(z),
        boundary: 4294967295,
        left: 4294967295,
        bounded: false,
        entered: false,
        instructions: 0,
        kerns: 0,
        entries: 0,
    })
}

// W: as many numbers as there are up to the end of the text.
fn word_line(text: &[u8], p: TextProgress, word: &mut [u32; 64]) -> Option<TextHeads>
    requires { Before text.now p }
    ensures { EndsWord (word_on (drop (p.at + 1) text.now)) p word.old result
        word.new }
{
    let at = p.at + 1;
    let rest = text.len() - at;
    if rest % 12 != 1 {
        return None;
    }
    let n = rest / 12;
    if !read_letters(text, at, n, word) {
        return None;
    }
    Some(heads_of(p, n as u32))
}

// The lines after D, to lists of zeros.
pub(crate) fn read_lines(
    text: &[u8],
    first: TextProgress,
    instructions: &mut [i32; 2048],
    kerns: &mut [i32; 512],
    entries: &mut [i32; 5040],
    word: &mut [u32; 64],
) -> Option<TextHeads>
    requires text_len_bound { (length text.now ≤ 65536) × (word.old ≡ zeros 0 64) }
    requires scanning { Scanning text.now first instructions.old kerns.old entries.old }
    ensures { ReadsLists text.now instructions.new kerns.new
        entries.new word.new result }
{
    let mut p = first;
    while p.at < text.len() {
        let at = p.at;
        if text[at] == 87 {
            return word_line(text, p, word);
        }
        let NextLine::At(q) = next_line(text, p, instructions, kerns, entries) else {
            return None;
        };
        p = q;
    }
    Some(heads_of(p, 4294967295))
}
