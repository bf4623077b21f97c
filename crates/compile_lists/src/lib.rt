// The last stage of compiling: the pair table and the loop list as numbers, from rows that are counted; the ops are
// crate `compile_ops`'s. After lines 400 to 460 of ligkern/compiler.rs for the loops. specs/Rows.antt of crate
// `compiling` says what a row holds.
#![tactic(auto)]

ghost use Rattle.std.specs.Prelude.{◌≡◌, ◌+◌, ◌*◌, ◌<◌, ◌≤◌, length, replicate, ℤ, pos};
ghost use Rattle.std.proofs.lemmas.List.Edits.{sets};
ghost use Rattle.words.specs.Words.{number_of};
ghost use Rattle.words.specs.Lists.{tabulate};
ghost use Rattle.lang.specs.Answers.{padded};
ghost use Rattle.fonts.specs.Fonts.{font_of, left_of};
ghost use Rattle.fonts.specs.Numbers.{left_number, loop_numbers};
ghost use Rattle.compiling.specs.Rows.{at, pair_at};
ghost use Rattle.compiling.specs.OpRows.{Ready, pairs_written};
ghost use Rattle.compiling.specs.OpSteps.{row_numbers};
ghost use Rattle.compiling.specs.LoopSteps.{Listing};
ghost use Rattle.compile_lists.specs.Builds.{Builds};

use compile_ops::write_ops;
use compile_rows::get;
use compiling::CountedFont;
use fonts::Compiled;
use words::i32s::put_word;
use words::slices::zero_all;

// The bits of a pair's left: -1 for the boundary.
fn left_word(left: u32) -> u32
    requires { left < 257 }
    ensures { number_of result ≡ left_number (left_of left) }
{
    if left == 0 { 4294967295 } else { left - 1 }
}

// The six numbers of row k at place p.
fn put_pair(work: &[u32], k: usize, pairs: &mut [i32], p: usize)
    requires { (k < 65792) × (at work.now k 0 < 257) × (p + 6 ≤ length pairs.old) }
    ensures { pairs.new ≡ sets pairs.old p (row_numbers work.now k) }
{
    put_word(pairs, p, left_word(get(work, k, 0)));
    put_word(pairs, p + 1, get(work, k, 1));
    put_word(pairs, p + 2, get(work, k, 6));
    put_word(pairs, p + 3, get(work, k, 7));
    put_word(pairs, p + 4, get(work, k, 13));
    put_word(pairs, p + 5, get(work, k, 12));
}

// The six numbers of each finished row, in the order of rows. Answers how many numbers that are.
fn write_pairs(work: &[u32], n: usize, m: usize, pairs: &mut [i32]) -> usize
    requires { (Ready n m work.now) × (6 * n ≤ length pairs.old)
        × (pairs.old ≡ replicate (length pairs.old) (pos 0)) }
    ensures { (result ≡ length (pairs_written n work.now))
        × (pairs.new ≡ padded (pos 0) (length pairs.old)
        (pairs_written n work.now)) }
{
    let mut end = 0;
    for k in 0..n {
        if get(work, k, 5) == 2 {
            put_pair(work, k, pairs, end);
            end += 6;
        }
    }
    end
}

// The pairs of the r rows that are listed, two numbers each.
fn write_loops(work: &[u32], r: usize, out: &mut [i32])
    requires { (r ≤ 65792) × (2 * r ≤ length out.old)
        × (out.old ≡ replicate (length out.old) (pos 0)) × (Listing r work.now) }
    ensures { out.new ≡ padded (pos 0) (length out.old)
        (loop_numbers (tabulate r (λ i. pair_at work.now (at work.now i 8)))) }
{
    for i in 0..r {
        let k = get(work, i, 8) as usize;
        let left = left_word(get(work, k, 0));
        let right = get(work, k, 1);
        put_word(out, 2 * i, left);
        put_word(out, 2 * i + 1, right);
    }
}

// The three lists of a font whose program, kerns and entries are not looked at here. 1 of the instructions' count, then
// 12 to 15, with every list all zeros; work is left zero.
pub fn write_lists(
    instructions: &[i32],
    kerns: &[i32],
    entries: &[i32],
    left_entry: i32,
    design_size: i32,
    pairs: &mut [i32],
    ops: &mut [i32],
    loops: &mut [i32],
    work: &mut [u32],
) -> Compiled
    ensures { (b : ℤ) →
        Builds
        (font_of instructions.now kerns.now entries.now b left_entry
        design_size) pairs.old ops.old loops.old work.old result
        pairs.new ops.new loops.new work.new }
{
    zero_all(pairs);
    zero_all(loops);
    let pair_room = pairs.len();
    let loop_room = loops.len();
    match write_ops(
        instructions,
        kerns,
        entries,
        left_entry,
        design_size,
        ops,
        work,
        pair_room,
        loop_room,
    ) {
        CountedFont::Refused(number) => Compiled::Refused(number),
        CountedFont::Sizes(n, m, total, r) => {
            let numbers = write_pairs(work, n, m, pairs);
            write_loops(work, r, loops);
            zero_all(work);
            Compiled::Tables(numbers / 6, total as usize, r)
        }
    }
}
