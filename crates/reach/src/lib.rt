// Reach: which instructions a font's entries lead to, and their skips counted over those alone (TFtoPL 75), after
// `reachable_iter` of ligkern/lang.rs (lines 656 to 665, 955 to 1003). The marks are a byte an instruction, 1 where it
// is reached, in a local array of as many as a program can have.
#![tactic(auto)]

ghost use Rattle.std.specs.Prelude.{◌≡◌, ◌++◌, ◌+◌, ◌*◌, ◌<◌, ◌≤◌, length, drop};
ghost use Rattle.words.specs.Words.{number_of};
ghost use Rattle.words.specs.Lists.{tabulate};
ghost use Rattle.lang.specs.Records.{count};
ghost use Rattle.reach.specs.Reach.{marks_from, adjusted_skip, state_of, skip_of, reach_number, reach_refusal};
ghost use Rattle.reach.specs.Reach.{Reaches};

use lang::Written;
use lang::instruction::instruction_at;
use program_checks::{absent_refusal, program_refusal};
use program_limits::{entries_refusal, passthrough_refusal, room_refusal};
use reach_marks::reachable_array;

// The bits of -1: no skip.
const NONE: u32 = 4294967295;

// The first refusal that holds, 0 where none does; `room` is the output's length.
fn reach_refusal(
    instructions: &[i32],
    entries: &[i32],
    left_entry: i32,
    passthrough: &[u8],
    room: usize,
) -> u32
    ensures { result ≡ reach_refusal instructions.now entries.now left_entry
        passthrough.now room }
{
    let program = program_refusal(instructions);
    if program != 0 {
        return program;
    }
    let entered = entries_refusal(65535, entries);
    if entered != 0 {
        return entered;
    }
    let left = absent_refusal(65535, left_entry);
    if left != 0 {
        return left;
    }
    let through = passthrough_refusal(passthrough, instructions);
    if through != 0 {
        return through;
    }
    room_refusal(2 * (instructions.len() / 4), room)
}

// How many of the k places from i on are marked.
fn marks_from(marks: &[u8], i: usize, k: u8) -> u32
    requires { i + k ≤ length marks.now }
    ensures { result ≡ marks_from marks.now i k }
{
    let mut found = 0;
    for mark in &marks[i..i + (k as usize)] {
        if *mark != 0 {
            found += 1;
        }
    }
    found
}

// TFtoPL 75: the skip of instruction i counted over marked ones, as its bits.
fn adjusted_skip(marks: &[u8], next: Option<u8>, i: usize) -> u32
    requires { i < length marks.now }
    ensures { number_of result ≡ adjusted_skip (length marks.now) marks.now next i }
{
    match next {
        None => NONE,
        Some(k) => {
            if k == 0 {
                return NONE;
            }
            if i + 1 + (k as usize) <= marks.len() {
                return marks_from(marks, i + 1, k);
            }
            NONE
        }
    }
}

// 0 unreachable, 1 reachable, 2 passthrough.
fn state_of(marks: &[u8], passthrough: &[u8], i: usize) -> u32
    ensures { result ≡ state_of marks.now passthrough.now i }
{
    if words::slices::item_at(marks, i) != 0 {
        return 1;
    }
    if words::slices::item_at(passthrough, i) != 0 {
        return 2;
    }
    0
}

// The adjusted skip of instruction i where it is marked, as its bits.
fn skip_of(instructions: &[i32], marks: &[u8], i: usize) -> u32
    requires { (length marks.now ≡ count instructions.now) × (i < length marks.now) }
    ensures { number_of result ≡ skip_of instructions.now marks.now i }
{
    if words::slices::item_at(marks, i) == 0 {
        return NONE;
    }
    let instruction = instruction_at(instructions, i);
    let next = instruction.next_instruction;
    adjusted_skip(marks, next, i)
}

// Two numbers an instruction, at the front of the output.
fn write_reach(instructions: &[i32], marks: &[u8], passthrough: &[u8], out: &mut [i32])
    requires { (length marks.now ≡ count instructions.now)
        × (2 * count instructions.now ≤ length out.old) }
    ensures { out.new ≡ tabulate (2 * count instructions.now)
        (reach_number instructions.now marks.now passthrough.now)
        ++ drop (2 * count instructions.now) out.old }
{
    for i in 0..marks.len() {
        words::i32s::put_word(out, 2 * i, state_of(marks, passthrough, i));
        words::i32s::put_word(out, 2 * i + 1, skip_of(instructions, marks, i));
    }
}

// A place for each instruction that a program can have.
fn places() -> [u8; 32767]
    ensures { length result ≡ 32767 }
{
    [0u8; 32767]
}

// Two numbers an instruction: its state (0 unreachable, 1 reachable, 2 passthrough) and its adjusted skip or -1.
// Answers the count of instructions.
pub fn reachable_iter(
    instructions: &[i32],
    entries: &[i32],
    left_entry: i32,
    passthrough: &[u8],
    out: &mut [i32],
) -> Written
    ensures { Reaches instructions.now entries.now left_entry
        passthrough.now out.old result out.new }
{
    words::slices::zero_all(out);
    let refusal = reach_refusal(instructions, entries, left_entry, passthrough, out.len());
    if refusal != 0 {
        return Written::Refused(refusal);
    }
    let n = instructions.len() / 4;
    let mut marks = places();
    reachable_array(instructions, entries, left_entry, &mut marks[..n]);
    write_reach(instructions, &marks[..n], passthrough, out);
    Written::Count(n)
}
