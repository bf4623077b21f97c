// A font compiled, and the answer of the port to the request C of tools/oracle from what was compiled.
#![tactic(auto)]

ghost use Rattle.std.specs.Prelude.{◌≡◌, length};
ghost use Rattle.test_requests.specs.Answers.{CountWithin};
ghost use Rattle.test_font_answers.specs.Fonts.{Numbered};

use fonts::Compiled;
use lang::Written;
use test_requests::answer::{fitting, put_count, put_list, put_one};
use test_requests::request::{
    entries_of, from_end, instructions_of, kerns_of, number_at, part, rest,
};

// Sixteen numbers a pair with a rule.
fn rows() -> [u32; 16384]
    ensures { 16384 ≡ length result }
{
    [0; 16384]
}

// A pair's six numbers without its first op, and then its ops.
fn put_pair(out: &mut [i32], at: usize, pair: &[i32], ops: &[i32]) -> usize {
    let a = put_list(out, at, part(pair, 0, 4));
    let n = words::i32s::word_at(pair, 5);
    let b = put_one(out, a, n);
    let from = 2 * (words::i32s::word_at(pair, 4) as usize);
    put_list(out, b, part(ops, from, from + 2 * (n as usize)))
}

// The pairs of a table.
fn put_pairs(out: &mut [i32], at: usize, pairs: &[i32], ops: &[i32]) -> usize {
    let mut next = at;
    for i in (0..pairs.len()).step_by(6) {
        next = put_pair(out, next, part(pairs, i, i + 6), ops);
    }
    next
}

// The number of pairs, the pairs, and the loop list.
fn put_compiled(out: &mut [i32], pairs: &[i32], ops: &[i32], loops: &[i32]) -> usize {
    let a = put_count(out, 0, pairs.len() / 6);
    let b = put_pairs(out, a, pairs, ops);
    let c = put_count(out, b, loops.len() / 2);
    put_list(out, c, loops)
}

// Compiles the font that follows its design size, at a size or by a magnification where one is not 0, with room for
// 1,024 pairs with a rule.
pub fn compile_font(
    sized: &[i32],
    size: i32,
    magnification: i32,
    pairs: &mut [i32],
    ops: &mut [i32],
    loops: &mut [i32],
) -> Compiled
    ensures { Numbered result }
{
    let font = rest(sized, 1);
    let mut work = rows();
    compile::compile(
        instructions_of(font),
        kerns_of(font),
        entries_of(font),
        number_at(font, from_end(font, 2)),
        number_at(font, from_end(font, 1)),
        number_at(sized, 0),
        size,
        magnification,
        pairs,
        ops,
        loops,
        &mut work,
    )
}

// The numbers of the answer, or 15 where the list is too short.
pub fn answer(pairs: &[i32], ops: &[i32], loops: &[i32], out: &mut [i32]) -> Written
    ensures { CountWithin result (length out.new) }
{
    let n = put_compiled(out, pairs, ops, loops);
    fitting(Written::Count(n), out.len())
}
