// What is printed, on standard output.

pub(crate) fn words(rt: &impl Print, text: &[u8]) {
    let _ = rt.write_all(text);
}

// A number, and what stands behind it.
fn number(rt: &impl Print, n: u32, end: &[u8]) {
    let _ = rt.print(n);
    words(rt, end);
}

// The number of a refusal.
pub(crate) fn refused(rt: &impl Print, n: u32) {
    words(rt, b": refused, ");
    number(rt, n, b"\n");
}

// The pair at which the copy loops.
pub(crate) fn pair(rt: &impl Print, left: u32, right: u32) {
    words(rt, b"; loop at (");
    number(rt, left, b" ");
    number(rt, right, b")\n");
}
