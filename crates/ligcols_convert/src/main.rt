// The converter: a column text on standard input, and on standard output what `print_converted` says of it, which is
// proved: the text without kern values, or on a refusal only a line with N and the number (R466). A read that fails is
// no end of the text: then nothing is printed. What failed is told on standard error.
#![tactic(auto)]

ghost use Rattle.std.specs.Prelude.{◌≡◌, length};

use failures::tell;
use file_fill::fill;
use text_print::{front, print_converted};

// Room for a text, and one byte more.
fn text_room() -> [u8; 65537]
    ensures { 65537 ≡ length result }
{
    [0; 65537]
}

// Room for what a text becomes.
fn answer_room() -> [u8; 65536]
    ensures { 65536 ≡ length result }
{
    [0; 65536]
}

// Prints what is due for the first `got` bytes.
fn print<R: Print + Eprint>(rt: &R, text: &[u8; 65537], got: usize) {
    let mut out = answer_room();
    let n = print_converted(text, got, &mut out);
    if let Err(error) = rt.write_all(front(&out, n)) {
        tell(
            rt,
            "ligcols_convert: the text is not whole: standard output can't be written",
            error,
        );
    }
}

fn main(rt: HostRuntime) {
    let mut text = text_room();
    match fill(&mut rt.stdin(), &mut text) {
        Ok(got) => print(&rt, &text, got),
        Err(error) => tell(
            &rt,
            "ligcols_convert: no text: standard input can't be read",
            error,
        ),
    }
}
