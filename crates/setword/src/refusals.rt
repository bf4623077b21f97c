// The words for what is refused.
use crate::print::{print_counted, print_text};
use file_lengths::file_half;

// A file that can't be read.
pub(crate) fn print_error(rt: &(impl Print + Eprint), error: u32) {
    print_counted(rt, b"refused: cannot be read, error ", error);
    print_text(rt, b"\n");
}

// 17: the file is not as long as its first two bytes say, or its lengths do not fit.
fn print_lengths(rt: &(impl Print + Eprint), file: &[u8]) {
    if file.len() == 4 * (file_half(file, 0) as usize) {
        print_text(rt, b": its lengths do not fit together\n");
        return;
    }
    print_text(rt, b": not the length that its first bytes say\n");
}

// The number of a refusal, and what it means.
pub(crate) fn print_refused(rt: &(impl Print + Eprint), number: u32, file: &[u8]) {
    print_counted(rt, b"refused, ", number);
    match number {
        12 => print_text(rt, b": more than 49,152 pairs have a rule\n"),
        13 => print_text(
            rt,
            b": a kern that a pair uses is 16 times the design size or more\n",
        ),
        14 => print_text(rt, b": more than 98,304 ops\n"),
        15 => print_text(rt, b": the word becomes more than 16,384 items\n"),
        17 => print_lengths(rt, file),
        19 => print_text(
            rt,
            b": a size is 0.00002 to 2,047.99998 points, and a magnification 1 to 32,768 thousandths\n",
        ),
        _ => print_text(rt, b": see README\n"),
    }
}
