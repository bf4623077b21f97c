// The second stage of compiling: which pairs finish, with which last, and what the others wait for: a depth-first
// search, after TFtoPL 94 and 95 and `calculate_replacements` of ligkern/compiler.rs (lines 162 to 398). Linear in the
// rows, times a bisection. The path, from the row that the search began with to the one that it looks at, stands in
// numbers 8 of the first rows; specs/Rows.antt of crate `compiling` says what a row holds.
#![tactic(auto)]

ghost use Rattle.std.specs.Prelude.{◌≡◌, ℕ, ◌/◌, ◌<◌, min, length, ℤ};
ghost use Rattle.compiling.specs.Rows.{at, Ascending, Encoded};
ghost use Rattle.fonts.specs.Fonts.{left_of, font_of};
ghost use Rattle.compiling.specs.SettledRows.{Settled};
ghost use Rattle.compiling.specs.SettleSteps.{LastsStored, PairSays, RuleSays, SecondSays, flagged, code_of, Searching};
ghost use Rattle.compiling.specs.SettleSteps.{Opened, Stuck, opening, finishing, GivenUp, Advanced, Searched};
ghost use Rattle.compile_settle.specs.Settles.{Settles};

use compile_prepare::prepare;
use compile_rows::{find, get, put};
use compiling::{Last, Prepared, Progress, SettledFont};

// The last of the pair of a left and a right: that of its row, or the right as it came.
fn last_of(work: &[u32], n: usize, left: u32, right: u32) -> Last
    requires { (LastsStored n work.now) × (left < 257) × (right < 256) }
    ensures { PairSays n work.now (left_of left) right result }
{
    let Some(j) = find(work, n, left, right) else {
        return Last::Known(right, 0);
    };
    if get(work, j, 5) == 2 {
        let code = get(work, j, 6);
        let flag = get(work, j, 7);
        Last::Known(code, flag)
    } else {
        Last::Waits(j)
    }
}

// The same last as a ligature.
fn as_ligature(last: Last) -> Last
    ensures { result ≡ flagged last }
{
    match last {
        Last::Known(code, _) => Last::Known(code, 1),
        Last::Waits(j) => Last::Waits(j),
    }
}

// After a first pair: its last with a right, or what the first waits for.
fn then_right(work: &[u32], n: usize, first: Last, right: u32) -> Last
    requires { (LastsStored n work.now) × (code_of first < 256) × (right < 256) }
    ensures { SecondSays n work.now right first result }
{
    match first {
        Last::Known(code, _) => last_of(work, n, 1 + code, right),
        Last::Waits(j) => Last::Waits(j),
    }
}

// What row k's rule says: TFtoPL 89's classes simple, left_z, right_z and both_z.
fn by_rule(work: &[u32], n: usize, k: usize) -> Last
    requires { (LastsStored n work.now) × (k < n) }
    ensures { RuleSays n work.now k result }
{
    let left = get(work, k, 0);
    let right = get(work, k, 1);
    let value = get(work, k, 4);
    match get(work, k, 3) {
        0 | 6 => Last::Known(value, 1),
        1 | 7 => last_of(work, n, 1 + value, right),
        2 => as_ligature(last_of(work, n, left, value)),
        3 => then_right(work, n, last_of(work, n, left, value), right),
        _ => Last::Known(right, 0),
    }
}

// Row j is open, at place h of the path.
fn open_row(work: &mut [u32], j: usize, h: usize)
    requires { (j < 65792) × (h < 65792) }
    ensures { work.new ≡ opening work.old j h }
{
    put(work, j, 5, 1);
    put(work, h, 8, j as u32);
}

// Row k has finished, after m rows, with this last.
fn finish(work: &mut [u32], k: usize, m: usize, code: u32, flag: u32)
    requires { (k < 65792) × (m < 65792) }
    ensures { work.new ≡ finishing work.old k m code flag }
{
    put(work, k, 5, 2);
    put(work, k, 6, code);
    put(work, k, 7, flag);
    put(work, k, 11, m as u32);
    put(work, m, 10, k as u32);
}

// The h rows of the path never finish: each waits for the next, and the last for row j.
fn give_up(work: &mut [u32], n: usize, h: usize, j: usize)
    requires { (Ascending n work.old) × (Opened n work.old h) × (j < n) }
    ensures { GivenUp work.old work.new h j 0 }
{
    let mut next = j as u32;
    for i in (0..h).rev() {
        let k = get(work, i, 8);
        put(work, k as usize, 5, 3);
        put(work, k as usize, 9, next);
        next = k;
    }
}

// The last row of the path waits for row j: a new row is opened, any other never finishes.
fn wait(work: &mut [u32], n: usize, j: usize, p: Progress) -> Progress
    requires { (Searching n work.old p.path p.done) × (Stuck n work.old p.path j) }
    ensures { Advanced n work.old work.new p.path result }
{
    let path = p.path;
    let done = p.done;
    if get(work, j, 5) == 0 {
        open_row(work, j, path);
        Progress {
            path: path + 1,
            done: done,
        }
    } else {
        give_up(work, n, path, j);
        Progress {
            path: 0,
            done: done,
        }
    }
}

// One turn: the last row of the path finishes, or waits.
fn turn(work: &mut [u32], n: usize, p: Progress) -> Progress
    requires { (Searching n work.old p.path p.done) × (0 < p.path) }
    ensures { Advanced n work.old work.new p.path result }
{
    let path = p.path;
    let done = p.done;
    let k = get(work, path - 1, 8) as usize;
    match by_rule(work, n, k) {
        Last::Known(code, flag) => {
            finish(work, k, done, code, flag);
            Progress {
                path: path - 1,
                done: done + 1,
            }
        }
        Last::Waits(j) => wait(work, n, j, p),
    }
}

// All that is met from row k, which is new. m rows have finished before; answers how many have then. A kern, which most
// rows have, waits for nothing.
fn search(work: &mut [u32], n: usize, k: usize, m: usize) -> usize
    requires { (Searching n work.old 0 m) × (k < n) × (at work.old k 5 ≡ 0) }
    ensures { Searched n work.old work.new k result }
{
    open_row(work, k, 0);
    if get(work, k, 3) == 128 {
        let right = get(work, k, 1);
        finish(work, k, m, right, 0);
        return m + 1;
    }
    let mut p = Progress { path: 1, done: m };
    while 0 < p.path {
        p = turn(work, n, p);
    }
    p.done
}

// Settles the first n rows. Answers how many finish.
fn settle_rows(work: &mut [u32], n: usize) -> usize
    requires { (Encoded n work.old) × ((k : ℕ) → k < n → at work.old k 5 ≡ 0) }
    ensures { Settled n work.old work.new result }
{
    let mut m = 0;
    for k in 0..n {
        if get(work, k, 5) == 0 {
            m = search(work, n, k, m);
        }
    }
    m
}

// The rows of a font, settled: at most `room` of them. 1, then 12, with the work all zeros. Answers also whether every
// kern that is a rule scales.
pub fn settle(
    instructions: &[i32],
    kerns: &[i32],
    entries: &[i32],
    left_entry: i32,
    design_size: i32,
    work: &mut [u32],
    room: usize,
) -> SettledFont
    ensures { (b : ℤ) →
        Settles
        (font_of instructions.now kerns.now entries.now b left_entry
        design_size) (min room (length work.old / 16)) work.old work.new
        result }
{
    match prepare(
        instructions,
        kerns,
        entries,
        left_entry,
        design_size,
        work,
        room,
    ) {
        Prepared::Refused(number) => SettledFont::Refused(number),
        Prepared::Rows(n, e, scaled) => {
            let m = settle_rows(work, n);
            SettledFont::Rows(n, e, m, scaled)
        }
    }
}
