// Two fonts of the program's own, each of the characters A and B and of one instruction, at A: between A and B it
// inserts a B. The first goes on from the A, and never ends; the second goes on from the inserted B, and ends.
use crate::line::Line;
use crate::report::{Verdict, put_refusal, report_font};

// Twelve lengths, a checksum, a design size of ten points, the two characters, two widths, a height, a depth, an italic
// correction, and the instruction, by its op byte: 3 or 7.
fn font(op: u8) -> [u8; 64] {
    let mut bytes =
        *b"\0\x10\0\x02\0A\0B\0\x02\0\x01\0\x01\0\x01\0\x01\0\0\0\0\0\0\0\0\0\0\0\xa0\0\0\
        \x01\0\x01\0\x01\0\0\0\0\0\0\0\0\x08\0\0\0\0\0\0\0\0\0\0\0\0\0\0\x80B\0B";
    bytes[62] = op;
    bytes
}

// One loop, at A B.
fn is_loop_of_both(verdict: Verdict) -> bool {
    let Ok(Some(loops)) = verdict else {
        return false;
    };
    loops.count == 1 && loops.left == 65 && loops.right == 66
}

// The words for one of the fonts, behind a text. Answers what it is read as.
fn report(rt: &(impl Print + Eprint), line: &mut Line, text: &[u8], font: &[u8]) -> Verdict {
    line.text(text);
    let verdict = report_font(rt, font, line);
    put_refusal(line, verdict);
    verdict
}

// Reads both, prints a line with what they are read as, and answers whether that is right.
pub(crate) fn are_right(rt: &(impl Print + Eprint)) -> bool {
    let mut line = Line::new();
    let looped = report(
        rt,
        &mut line,
        b"test fonts: the one that loops reads ",
        &font(3),
    );
    let freed = report(rt, &mut line, b"; the one that does not reads ", &font(7));
    line.end(rt, b"\n");
    is_loop_of_both(looped) && matches!(freed, Ok(None))
}
