// The fifth stage of compiling: the ops as numbers, in a pass over the rows in the order in which they finished, each
// copied from rows written before. After lines 171 to 398 of ligkern/compiler.rs. specs/Rows.antt of crate `compiling`
// says what a row holds.
#![tactic(auto)]

ghost use Rattle.std.specs.Prelude.{◌≡◌, List, [], ◌∷◌, ◌+◌, ◌*◌, ◌<◌, ◌≤◌, length, take, drop, replicate, ℤ, pos};
ghost use Rattle.std.proofs.lemmas.List.Edits.{sets};
ghost use Rattle.words.specs.Words.{number_of};
ghost use Rattle.lang.specs.Answers.{padded};
ghost use Rattle.reading.specs.Items.{Out};
ghost use Rattle.fonts.specs.Fonts.{font_of};
ghost use Rattle.fonts.specs.Numbers.{ops_of, op_numbers};
ghost use Rattle.compiling.specs.SettledRows.{outcome};
ghost use Rattle.compiling.specs.OpRows.{Ready, op_total, ops_written};
ghost use Rattle.compiling.specs.OpSteps.{raised_outs, OpsAt, Apart, ops_place, ops_size, Copies, PartFits};
ghost use Rattle.compiling.specs.OpSteps.{PartWritten};
ghost use Rattle.compiling.specs.OpSteps.{ToWrite, first_part, second_part, LastFits};
ghost use Rattle.compiling.specs.Rows.{Encoded};
ghost use Rattle.compile_ops.specs.WritesOps.{WritesOps};

use compile_op_counts::count;
use compile_op_parts::{first_part, second_part};
use compile_rows::get;
use compiling::{CountedFont, Part};
use words::slices::zero_all;

// An op at place p. Answers the place after it.
fn put_op(ops: &mut [i32], p: usize, kind: u32, value: u32) -> usize
    requires { p + 2 ≤ length ops.old }
    ensures { (result ≡ p + 2)
        × (ops.new ≡ sets ops.old p (number_of kind ∷ number_of value ∷ [])) }
{
    words::i32s::put_word(ops, p, kind);
    words::i32s::put_word(ops, p + 1, value);
    p + 2
}

// The numbers from one place on, copied to another.
fn copy_numbers(ops: &mut [i32], from: usize, to: usize, count: usize)
    requires { (from + count ≤ length ops.old) × (to + count ≤ length ops.old)
        × (Apart from to count) }
    ensures { ops.new ≡ sets ops.old to (take count (drop from ops.old)) }
{
    for i in 0..count {
        let word = words::i32s::word_at(ops, from + i);
        words::i32s::put_word(ops, to + i, word);
    }
}

// The ops of row k, copied to place p. Answers the place after them.
fn copy_row(work: &[u32], k: usize, ops: &mut [i32], p: usize) -> usize
    requires { Copies work.now ops.old p k }
    ensures { (result ≡ p + ops_size work.now k)
        × (ops.new ≡ sets ops.old p
        (take (ops_size work.now k) (drop (ops_place work.now k) ops.old))) }
{
    let from = 2 * (get(work, k, 13) as usize);
    let count = 2 * (get(work, k, 12) as usize);
    copy_numbers(ops, from, p, count);
    p + count
}

// A part at place p. Answers the place after it.
fn write_part(work: &[u32], part: Part, ops: &mut [i32], p: usize) -> usize
    requires { PartFits work.now ops.old p part }
    ensures { PartWritten work.now ops.old ops.new p result part }
{
    match part {
        Part::Nothing => p,
        Part::Character(c) => put_op(ops, p, 0, c),
        Part::Ligature(c) => put_op(ops, p, 1, c),
        Part::Kern(v) => put_op(ops, p, 2, v),
        Part::OfRow(k) => copy_row(work, k, ops, p),
    }
}

// The first character op from one place on, before another, becomes a ligature.
fn raise_first(ops: &mut [i32], from: usize, to: usize)
    requires { to ≤ length ops.old }
    ensures { (os : List Out) → OpsAt ops.old from to os →
        ops.new ≡ sets ops.old from (op_numbers (raised_outs os)) }
{
    for i in (from..to).step_by(2) {
        if words::i32s::word_at(ops, i) != 2 {
            words::i32s::put_word(ops, i, 1);
            return;
        }
    }
}

// The first part of row k's ops at place p. Answers the place after it. Of a kern, which most rows have, it is its
// left.
fn write_first(work: &[u32], n: usize, k: usize, ops: &mut [i32], p: usize) -> usize
    requires { (Encoded n work.now) × (k < n) × PartFits work.now ops.old p (first_part n work.now k) }
    ensures { PartWritten work.now ops.old ops.new p result
        (first_part n work.now k) }
{
    if get(work, k, 3) != 128 {
        return write_part(work, first_part(work, n, k), ops, p);
    }
    let left = get(work, k, 0);
    if left == 0 {
        return p;
    }
    put_op(ops, p, 0, left - 1)
}

// The second part, of a kern the kern itself.
fn write_second(work: &[u32], n: usize, k: usize, ops: &mut [i32], p: usize) -> usize
    requires { (Encoded n work.now) × (k < n) × (LastFits n work.now k)
        × PartFits work.now ops.old p (second_part n work.now k) }
    ensures { PartWritten work.now ops.old ops.new p result
        (second_part n work.now k) }
{
    if get(work, k, 3) != 128 {
        return write_part(work, second_part(work, n, k), ops, p);
    }
    let value = get(work, k, 4);
    put_op(ops, p, 2, value)
}

// The ops of row k, which finishes, at its first op.
fn write_row(work: &[u32], n: usize, k: usize, ops: &mut [i32])
    requires { ToWrite n work.now ops.old k }
    ensures { ops.new ≡ sets ops.old (ops_place work.now k)
        (op_numbers (ops_of (outcome n work.now k))) }
{
    let from = 2 * (get(work, k, 13) as usize);
    let next = write_first(work, n, k, ops, from);
    let end = write_second(work, n, k, ops, next);
    raise_first(ops, next, end)
}

// The ops of each finished row at its first op, in the order in which rows finished, copied from rows written before.
fn write_rows(work: &[u32], n: usize, m: usize, ops: &mut [i32])
    requires { (Ready n m work.now) × (2 * op_total n work.now ≤ length ops.old)
        × (ops.old ≡ replicate (length ops.old) (pos 0)) }
    ensures { ops.new ≡ padded (pos 0) (length ops.old)
        (ops_written n work.now) }
{
    for i in 0..m {
        let k = get(work, i, 10) as usize;
        write_row(work, n, k, ops);
    }
}

// The rows of a font, counted, and its ops, written: for a pair table and a loop list of so many numbers. 1, then 12 to
// 15, with the work and the ops all zeros.
pub fn write_ops(
    instructions: &[i32],
    kerns: &[i32],
    entries: &[i32],
    left_entry: i32,
    design_size: i32,
    ops: &mut [i32],
    work: &mut [u32],
    pair_room: usize,
    loop_room: usize,
) -> CountedFont
    ensures { (b : ℤ) →
        WritesOps
        (font_of instructions.now kerns.now entries.now b left_entry
        design_size) pair_room loop_room ops.old work.old ops.new
        work.new result }
{
    zero_all(ops);
    let room = ops.len();
    match count(
        instructions,
        kerns,
        entries,
        left_entry,
        design_size,
        work,
        pair_room,
        room,
        loop_room,
    ) {
        CountedFont::Refused(number) => CountedFont::Refused(number),
        CountedFont::Sizes(n, m, total, r) => {
            write_rows(work, n, m, ops);
            CountedFont::Sizes(n, m, total, r)
        }
    }
}
