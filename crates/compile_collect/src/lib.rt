// The first half of compiling's first stage: the pairs that have a rule, a row each in the work buffer, in ascending
// order with the boundary first, after `build_node_to_program_start_map` of ligkern/compiler.rs (lines 113 to 148).
// Each left's chain is walked once (crate `compile_survey`), and its rows written (crate `compile_chain_rows`).
// specs/Rows.antt of crate `compiling` says what a row holds.
#![tactic(auto)]

ghost use Rattle.std.specs.Prelude.{◌≡◌, ◌*◌, ◌<◌, ◌≤◌, ◌/◌, min, length, replicate};
ghost use Rattle.words.specs.Words.{Word};
ghost use Rattle.lang.specs.Records.{count};
ghost use Rattle.fonts.specs.Fonts.{left_of, left_entry_of};
ghost use Rattle.compiling.specs.PairRows.{CollectsBy};
ghost use Rattle.lang.specs.Entries.{entries_table};
ghost use Rattle.compile_collect.specs.Collecting.{CollectsFont, edge_by};
ghost use Rattle.compiling.specs.PairSteps.{Adding, AddsBy, entry_place};

use compile_chain_rows::add_rows;
use compile_survey::survey;
use compiling::Collected;
use lang::entries::entries_table;
use words::i32s::word_at;
use words::slices::zero_all;

// The place of a left in the table of entries.
fn place_of(left: usize) -> usize
    ensures { result ≡ entry_place left }
{
    if left == 0 { 256 } else { left - 1 }
}

// The entry of a left, as its 32 bits.
fn entry_of(table: &[i32; 257], left: usize) -> u32
    requires { left < 257 }
    ensures { Word (left_entry_of table.now (left_of left)) result }
{
    word_at(table, place_of(left))
}

// The rows of one more left, after n others; none where it has no entry. Answers how many rows there are then, or
// nothing where they are more than the cap. The two tables are for the left's chain alone: what they held is not read,
// and what they hold then is free.
fn add_left(
    instructions: &[i32],
    table: &[i32; 257],
    work: &mut [u32],
    cap: usize,
    n: usize,
    left: usize,
    places: &mut [u32; 256],
    indices: &mut [u32; 256],
) -> Option<usize>
    requires { Adding instructions.now table.now left n cap work.old }
    ensures { AddsBy instructions.now table.now left n cap work.old
        work.new result }
{
    let entry = entry_of(table, left);
    if 2147483648 <= entry {
        return Some(n);
    }
    let mut rights = [0u64; 4];
    let m = survey(instructions, entry as usize, places, indices, &mut rights);
    if cap - n < m {
        return None;
    }
    add_rows(work, n as u32, left as u32, &rights, places, indices);
    Some(n + m)
}

// How many rows are the boundary's, which is the first left.
fn edge_rows(left: usize, n: usize, e: usize) -> usize
    ensures { result ≡ edge_by left n e }
{
    if left == 0 { n } else { e }
}

// At most `cap` rows are written, to a work buffer of zeros. 12.
fn collect_rows(instructions: &[i32], table: &[i32; 257], work: &mut [u32], cap: usize) -> Collected
    requires { (count instructions.now ≤ 32767) × (16 * cap ≤ length work.old)
        × (work.old ≡ replicate (length work.old) 0) }
    ensures { CollectsBy instructions.now table.now cap work.old
        work.new result }
{
    let mut places = [0u32; 256];
    let mut indices = [0u32; 256];
    let mut n = 0;
    let mut e = 0;
    for left in 0..257 {
        let Some(m) = add_left(
            instructions,
            table,
            work,
            cap,
            n,
            left,
            &mut places,
            &mut indices,
        ) else {
            return Collected::Refused(12);
        };
        n = m;
        e = edge_rows(left, n, e);
    }
    Collected::Rows(n, e)
}

// The pairs of a font that have a rule, in a work buffer of sixteen u32 a pair: at most `room` of them. 1 where there
// are over 32,767 instructions, then 12, with the work all zeros.
pub fn collect(
    instructions: &[i32],
    entries: &[i32],
    left_entry: i32,
    work: &mut [u32],
    room: usize,
) -> Collected
    ensures { CollectsFont instructions.now
        (entries_table entries.now left_entry) (min room (length work.old / 16))
        work.old work.new result }
{
    zero_all(work);
    if 32767 < instructions.len() / 4 {
        return Collected::Refused(1);
    }
    let table = entries_table(entries, left_entry);
    let cap = room.min(work.len() / 16);
    match collect_rows(instructions, &table, work, cap) {
        Collected::Rows(n, e) => Collected::Rows(n, e),
        Collected::Refused(number) => {
            zero_all(work);
            Collected::Refused(number)
        }
    }
}
