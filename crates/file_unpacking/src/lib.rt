// Packed entries unpacked (TeX 1039): those that lead to an instruction to one list, and the characters of the others
// to another. Each entry is looked at twice: to count, and to write.
#![tactic(auto)]

ghost use Rattle.std.specs.Prelude.{◌≡◌, List, ◌+◌, ◌*◌, ◌/◌, ◌<◌, ◌≤◌, ℤ, length};
ghost use Rattle.lang.specs.Records.{count};
ghost use Rattle.file_fonts.specs.Meant.{unpacked_below};
ghost use Rattle.file_unpacking.specs.Unpacking.{Unpacked, unpack_all_refusal, UnpacksWithin};

use entry_targets::{entry_refusal, stands_for};
use lang::Written;
use program_limits::room_refusal;
use words::i32s::{put_word, word_at};

// How many of the packed entries lead to an instruction.
fn count_leading(instructions: &[i32], packed: &[i32]) -> usize
    ensures { length (unpacked_below instructions.now packed.now
        (length packed.now / 2)) ≡ 2 * result }
{
    let mut n = 0;
    for i in 0..packed.len() / 2 {
        let entry = word_at(packed, 2 * i + 1);
        if entry_refusal(instructions, entry as usize) == 0 {
            n += 1;
        }
    }
    n
}

// 1 or 15, or 0, for lists of so many places.
fn unpack_refusal(instructions: &[i32], packed: &[i32], room: usize, lost_room: usize) -> u32
    ensures { result ≡ unpack_all_refusal instructions.now packed.now room lost_room }
{
    if 32767 < instructions.len() / 4 {
        return 1;
    }
    let n = count_leading(instructions, packed);
    let entries = room_refusal(2 * n, room);
    if entries != 0 {
        return entries;
    }
    room_refusal(packed.len() / 2 - n, lost_room)
}

// The packed entry at place i, after n others that lead to an instruction. Answers how many do then.
fn unpack_one(
    instructions: &[i32],
    packed: &[i32],
    i: usize,
    entries: &mut [i32],
    n: usize,
    lost: &mut [i32],
) -> usize
    requires { (count instructions.now ≤ 32767) × ((i < length packed.now / 2) × (n ≤ i)) }
    ensures { (es ls : List ℤ) →
        Unpacked instructions.now packed.now i n es ls entries.old
        lost.old →
        Unpacked instructions.now packed.now (i + 1) result es ls entries.new
        lost.new }
{
    let c = word_at(packed, 2 * i);
    let entry = word_at(packed, 2 * i + 1);
    if entry_refusal(instructions, entry as usize) != 0 {
        put_word(lost, i - n, c);
        return n;
    }
    let target = stands_for(instructions, entry as usize) as u32;
    put_word(entries, 2 * n, c);
    put_word(entries, 2 * n + 1, target);
    n + 1
}

// Every packed entry, from the front of both lists on. Answers how many lead to an instruction.
fn unpack_all(instructions: &[i32], packed: &[i32], entries: &mut [i32], lost: &mut [i32]) -> usize
    requires { count instructions.now ≤ 32767 }
    ensures { Unpacked instructions.now packed.now
        (length packed.now / 2) result entries.old lost.old entries.new
        lost.new }
{
    let mut n = 0;
    for i in 0..packed.len() / 2 {
        n = unpack_one(instructions, packed, i, entries, n, lost);
    }
    n
}

// The packed entries unpacked, to the fronts of two lists. Answers how many lead to an instruction, or 1 or 15, with
// nothing written.
pub fn unpack_within(
    instructions: &[i32],
    packed: &[i32],
    entries: &mut [i32],
    lost: &mut [i32],
) -> Written
    ensures { UnpacksWithin instructions.now packed.now entries.old
        lost.old result entries.new lost.new }
{
    let refusal = unpack_refusal(instructions, packed, entries.len(), lost.len());
    if refusal != 0 {
        return Written::Refused(refusal);
    }
    Written::Count(unpack_all(instructions, packed, entries, lost))
}
