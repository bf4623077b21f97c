// The fourth stage of compiling: how many ops each pair has, and where they begin, in passes over settled rows; what of
// the refusals 13 to 15 that tells. specs/Rows.antt of crate `compiling` says what a row holds.
#![tactic(auto)]

ghost use Rattle.std.specs.Prelude.{◌≡◌, ℕ, ◌+◌, ◌<◌, length, ℤ};
ghost use Rattle.fonts.specs.Fonts.{Font, font_of};
ghost use Rattle.fonts.specs.Compiled.{room_of};
ghost use Rattle.compiling.specs.Rows.{at, Ascending, Encoded};
ghost use Rattle.compiling.specs.SettledRows.{Settled};
ghost use Rattle.compiling.specs.OpRows.{capped, Counts, Exact, Firsts, op_total};
ghost use Rattle.compiling.specs.OpSteps.{LastFits, part_count, row_count, counts_before, FieldStored, OpsCounted};
ghost use Rattle.compile_loops.specs.FindsLoops.{FontWalked};
ghost use Rattle.compile_op_counts.specs.Counting.{sizes_refusal, MeasuresBy, CountsFont};

use compile_loops::find_loops;
use compile_op_parts::{first_part, second_part};
use compile_rows::{get, put};
use compiling::{CountedFont, Part, WalkedFont};
use words::slices::zero_all;

// A sum that stops at 2^31.
fn capped_sum(a: u32, b: u32) -> u32
    ensures { result ≡ capped (a + b) }
{
    let sum = (a as u64) + (b as u64);
    if sum < 2147483648 {
        sum as u32
    } else {
        2147483648
    }
}

// How many ops a part has.
fn part_count(work: &[u32], part: Part) -> u32
    ensures { result ≡ part_count work.now part }
{
    match part {
        Part::Nothing => 0,
        Part::Character(_) => 1,
        Part::Ligature(_) => 1,
        Part::Kern(_) => 1,
        Part::OfRow(k) => get(work, k, 12),
    }
}

// How many ops row k has, by the counts of the rows that it consults. A kern, which most rows have, consults none: it
// follows its left, if that is a character.
fn row_count(work: &[u32], n: usize, k: usize) -> u32
    requires { (Encoded n work.now) × (k < n) × LastFits n work.now k }
    ensures { result ≡ row_count n work.now k }
{
    if get(work, k, 3) == 128 {
        if get(work, k, 0) == 0 {
            return 1;
        }
        return 2;
    }
    let first = part_count(work, first_part(work, n, k));
    let second = part_count(work, second_part(work, n, k));
    capped_sum(first, second)
}

// No row has ops yet.
fn zero_counts(work: &mut [u32], n: usize)
    requires { Ascending n work.old }
    ensures { FieldStored 12 n (λ (_ : ℕ). 0) work.old work.new n }
{
    for k in 0..n {
        put(work, k, 12, 0);
    }
}

// The op count of each row that finishes, in the order in which rows finished.
fn count_rows(work: &mut [u32], n: usize, m: usize)
    requires { (Encoded n work.old) × (Settled n work.old work.old m)
        × ((k : ℕ) → k < n → at work.old k 12 ≡ 0) }
    ensures { OpsCounted n work.old work.new }
{
    for i in 0..m {
        let k = get(work, i, 10) as usize;
        let count = row_count(work, n, k);
        put(work, k, 12, count);
    }
}

// The sum of the counts, capped.
fn total_count(work: &[u32], n: usize) -> u32
    ensures { result ≡ capped (counts_before work.now n) }
{
    let mut total = 0;
    for k in 0..n {
        let count = get(work, k, 12);
        total = capped_sum(total, count);
    }
    total
}

// The op count of each row, in the order in which rows finished, capped at 2^31. Answers their sum, capped.
fn count_ops(work: &mut [u32], n: usize, m: usize) -> u32
    requires { (Encoded n work.old) × (Settled n work.old work.old m) }
    ensures { Counts n work.old work.new result }
{
    zero_counts(work, n);
    count_rows(work, n, m);
    total_count(work, n)
}

// The first op of each row, in the order of rows.
fn first_ops(work: &mut [u32], n: usize, m: usize)
    requires { (Encoded n work.old) × (Settled n work.old work.old m) × (Exact n work.old)
        × (op_total n work.old < 2147483648) }
    ensures { Firsts n work.old work.new }
{
    let mut total = 0;
    for k in 0..n {
        put(work, k, 13, total);
        let count = get(work, k, 12);
        total += count;
    }
}

// 13, 14 or 15: a kern does not scale, the ops are too many, the loops do not fit.
fn sizes_refusal(scaled: bool, total: u32, loops: usize, op_room: usize, loop_room: usize) -> u32
    ensures { result ≡ sizes_refusal scaled total loops op_room loop_room }
{
    if !scaled {
        return 13;
    }
    if 2147483647 < total {
        return 14;
    }
    if op_room / 2 < (total as usize) {
        return 14;
    }
    if loop_room / 2 < loops {
        return 15;
    }
    0
}

// Counts the ops of a font's rows, whose loops are listed.
fn measure(
    work: &mut [u32],
    n: usize,
    m: usize,
    r: usize,
    scaled: bool,
    op_room: usize,
    loop_room: usize,
) -> CountedFont
    requires { (f : Font) × FontWalked f work.old n m r }
    ensures { (f : Font) → FontWalked f work.old n m r →
        MeasuresBy f scaled op_room loop_room n m r work.old work.new result }
{
    let total = count_ops(work, n, m);
    let number = sizes_refusal(scaled, total, r, op_room, loop_room);
    if number != 0 {
        zero_all(work);
        return CountedFont::Refused(number);
    }
    first_ops(work, n, m);
    CountedFont::Sizes(n, m, total, r)
}

// The rows of a font, with their loops listed and their ops counted, for lists of so many numbers. 1, then 12 to 15,
// with the work all zeros.
pub fn count(
    instructions: &[i32],
    kerns: &[i32],
    entries: &[i32],
    left_entry: i32,
    design_size: i32,
    work: &mut [u32],
    pair_room: usize,
    op_room: usize,
    loop_room: usize,
) -> CountedFont
    ensures { (b : ℤ) →
        CountsFont
        (font_of instructions.now kerns.now entries.now b left_entry
        design_size) (room_of pair_room op_room loop_room (length work.old))
        work.old work.new result }
{
    match find_loops(
        instructions,
        kerns,
        entries,
        left_entry,
        design_size,
        work,
        pair_room / 6,
    ) {
        WalkedFont::Refused(number) => CountedFont::Refused(number),
        WalkedFont::Rows(n, m, r, scaled) => { measure(work, n, m, r, scaled, op_room, loop_room) }
    }
}
