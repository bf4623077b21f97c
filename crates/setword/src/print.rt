// Words printed on standard output.
use failures::tell;
use phrase_put::{bytes_before, put_coded, put_counted, put_named};

// A text.
pub(crate) fn print_text(rt: &(impl Print + Eprint), text: &[u8]) {
    if let Err(error) = rt.write_all(text) {
        tell(rt, "setword: standard output can't be written", error);
    }
}

// A text, and then a number.
pub(crate) fn print_counted(rt: &(impl Print + Eprint), text: &[u8], n: u32) {
    let mut line = [0u8; 4096];
    let end = put_counted(&mut line, 0, text, n);
    print_text(rt, bytes_before(&line, end));
}

// A text, and then a character as itself or by its code.
pub(crate) fn print_coded(rt: &(impl Print + Eprint), text: &[u8], c: u32) {
    let mut line = [0u8; 4096];
    let end = put_coded(&mut line, 0, text, c);
    print_text(rt, bytes_before(&line, end));
}

// A text, and then a character with its code.
pub(crate) fn print_named(rt: &(impl Print + Eprint), text: &[u8], c: u32) {
    let mut line = [0u8; 4096];
    let end = put_named(&mut line, 0, text, c);
    print_text(rt, bytes_before(&line, end));
}
