// The third stage of compiling: the loop list (R87 to R89), a walk from each row that never finishes, in the order of
// TFtoPL 90, after lines 400 to 460 of ligkern/compiler.rs. specs/Rows.antt of crate `compiling` says what a row holds.
#![tactic(auto)]

ghost use Rattle.std.specs.Prelude.{◌≡◌, ℕ, ◌/◌, ◌<◌, ◌≤◌, min, length, ℤ};
ghost use Rattle.fonts.specs.Fonts.{font_of};
ghost use Rattle.compiling.specs.Rows.{at, Encoded};
ghost use Rattle.compiling.specs.SettledRows.{Settled};
ghost use Rattle.compiling.specs.LoopRows.{walk_row, WalkOrder, Listed};
ghost use Rattle.compiling.specs.LoopSteps.{Walkable, Walk, WalkTaken};
ghost use Rattle.compile_loops.specs.FindsLoops.{FindsLoops};

use compile_rows::{get, put};
use compile_settle::settle;
use compiling::{SettledFont, WalkedFont};

// Marks rows from row k on with id, each time going on to the row that is waited for, up to one that has a mark.
// Answers that row.
fn walk_from(work: &mut [u32], n: usize, k: usize, id: u32) -> usize
    requires { (Walkable n work.old) × (k < n) × (at work.old k 5 ≡ 3) × (0 < id) }
    ensures { Walk id work.old k work.new result }
{
    let mut cur = k;
    while get(work, cur, 14) == 0 {
        let next = get(work, cur, 9) as usize;
        put(work, cur, 14, id);
        cur = next;
    }
    cur
}

// Walks from row k, where it never finishes, and lists the row at which the walk ends, where that is one of its own.
// Answers how many rows are listed then.
fn take_turn(work: &mut [u32], n: usize, k: usize, id: u32, r: usize) -> usize
    requires { (Walkable n work.old) × (k < n) × (0 < id) × (r < n) }
    ensures { WalkTaken id work.old k r work.new result }
{
    if get(work, k, 5) == 3 {
        let end = walk_from(work, n, k, id);
        if get(work, end, 14) == id {
            put(work, r, 8, end as u32);
            return r + 1;
        }
    }
    r
}

// The row of turn number s, where the first e of n rows are the boundary's.
fn row_of_turn(work: &[u32], n: usize, e: usize, s: usize) -> usize
    requires { (n ≤ 65792) × (e ≤ n) × (s < n) }
    ensures { result ≡ walk_row n e work.now s }
{
    let place = e + s;
    if place < n {
        get(work, place, 15) as usize
    } else {
        get(work, place - n, 15) as usize
    }
}

// Walks from each row that never finishes, by left character, the boundary last, then by rule index. Answers how many
// pairs are listed.
fn walk_rows(work: &mut [u32], n: usize, e: usize) -> usize
    requires { (Encoded n work.old) × ((m : ℕ) × Settled n work.old work.old m)
        × (WalkOrder n e work.old) × ((k : ℕ) → k < n → at work.old k 14 ≡ 0) }
    ensures { Listed n work.old work.new result }
{
    let mut r = 0;
    for s in 0..n {
        let k = row_of_turn(work, n, e, s);
        r = take_turn(work, n, k, (s + 1) as u32, r);
    }
    r
}

// The rows of a font, settled, with its loops listed in numbers 8 of the first rows: at most `room` rows. 1, then 12,
// with the work all zeros.
pub fn find_loops(
    instructions: &[i32],
    kerns: &[i32],
    entries: &[i32],
    left_entry: i32,
    design_size: i32,
    work: &mut [u32],
    room: usize,
) -> WalkedFont
    ensures { (b : ℤ) →
        FindsLoops
        (font_of instructions.now kerns.now entries.now b left_entry
        design_size) (min room (length work.old / 16)) work.old work.new
        result }
{
    match settle(
        instructions,
        kerns,
        entries,
        left_entry,
        design_size,
        work,
        room,
    ) {
        SettledFont::Refused(number) => WalkedFont::Refused(number),
        SettledFont::Rows(n, e, m, scaled) => {
            let r = walk_rows(work, n, e);
            WalkedFont::Rows(n, m, r, scaled)
        }
    }
}
