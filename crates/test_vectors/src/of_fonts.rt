// The answers about a font as a whole, which is compiled first: C, M, W and A. The lists have room for 1,024 pairs,
// 1,024 ops and 1,024 loops.
ghost use Rattle.std.specs.Prelude.{◌≡◌, length};

use fonts::Compiled;
use lang::Written;
use test_font_answers::compile_font;
use test_requests::request::{after, number_at, part, rest};

// Six numbers a pair.
fn table() -> [i32; 6144]
    ensures { 6144 ≡ length result }
{
    [0; 6144]
}

// Two numbers an op or a loop.
fn list() -> [i32; 2048]
    ensures { 2048 ≡ length result }
{
    [0; 2048]
}

// The font with its design size: after the word of W, after the size and the magnification of M, else all.
fn sized_font(letter: u8, numbers: &[i32]) -> &[i32] {
    if letter == b'W' {
        return rest(numbers, after(numbers, 2, 1));
    }
    if letter == b'M' {
        return rest(numbers, 2);
    }
    numbers
}

// Number i of M, the size or the magnification; else 0.
fn asked(letter: u8, numbers: &[i32], i: usize) -> i32 {
    if letter == b'M' {
        number_at(numbers, i)
    } else {
        0
    }
}

// The answer to C, M, W or A, from the pairs, ops and loops of the font.
fn answer_by(
    letter: u8,
    numbers: &[i32],
    pairs: &[i32],
    ops: &[i32],
    loops: &[i32],
    out: &mut [i32],
) -> Written {
    match letter {
        b'C' | b'M' => test_font_answers::answer(pairs, ops, loops, out),
        _ => test_table_answers::answer(letter, numbers, pairs, ops, out),
    }
}

// The answer from what was compiled.
fn answer_from(
    letter: u8,
    numbers: &[i32],
    compiled: Compiled,
    pairs: &[i32],
    ops: &[i32],
    loops: &[i32],
    out: &mut [i32],
) -> Written {
    match compiled {
        Compiled::Tables(p, o, m) => answer_by(
            letter,
            numbers,
            part(pairs, 0, p % 4294967296 * 6),
            part(ops, 0, o % 4294967296 * 2),
            part(loops, 0, m % 4294967296 * 2),
            out,
        ),
        Compiled::Refused(n) => Written::Refused(n),
    }
}

// C design FONT, M size magnification design FONT, A design FONT, or W left override WORD design FONT
pub(crate) fn compiled(letter: u8, numbers: &[i32], out: &mut [i32]) -> Written {
    let mut pairs = table();
    let mut ops = list();
    let mut loops = list();
    let sized = sized_font(letter, numbers);
    let size = asked(letter, numbers, 0);
    let magnification = asked(letter, numbers, 1);
    let compiled = compile_font(sized, size, magnification, &mut pairs, &mut ops, &mut loops);
    answer_from(letter, numbers, compiled, &pairs, &ops, &loops, out)
}
