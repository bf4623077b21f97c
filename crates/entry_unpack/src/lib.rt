// The entry of a character from the packed one, after `unpack_entrypoint` (ligkern/lang.rs lines 533 to 551); the
// program's seven-bit test, after `is_seven_bit_safe` (lines 678 to 689).
#![tactic(auto)]

ghost use Rattle.std.specs.Prelude.{◌≡◌, true, [], ◌++◌, ◌<◌, ◌≤◌, ◌/◌, length, drop};
ghost use Rattle.program_chain.specs.Chains.{chain_of};
ghost use Rattle.entry_unpack.specs.Unpacking.{unpack_refusal, unpacked_reply, is_named, passthrough_at};
ghost use Rattle.entry_unpack.specs.Unpacking.{passthrough_after, UnpacksEntry, inserts_seven_bit, all_seven_bit};
ghost use Rattle.entry_unpack.specs.Unpacking.{entry_safe, is_seven_bit_safe, seven_bit_reply, seven_bit};

use entry_targets::{entry_refusal, is_redirect, stands_for};
use lang::instruction::field_at;
use program_chain::next_instruction;
use program_checks::{program_refusal, range_refusal};
use program_limits::{entries_refusal, passthrough_refusal, room_refusal};

// What unpacking an entry answers.
#[derive(Clone, Copy)]
pub enum Unpacked {
    Entry(usize),
    // The entry is past the instructions.
    Direct,
    // The entry is at a redirect whose target is past them.
    Indirect,
    // Another refusal, by its number.
    Refused(u32),
}

// What the seven-bit test answers.
#[derive(Clone, Copy)]
pub enum SevenBit {
    Safe(bool),
    Refused(u32),
}

// The first refusal that holds, 0 where none does; `room` is the length of the list that is to be.
fn unpack_refusal(instructions: &[i32], entry: i32, passthrough: &[u8], room: usize) -> u32
    ensures { result ≡ unpack_refusal instructions.now entry passthrough.now room }
{
    let program = program_refusal(instructions);
    if program != 0 {
        return program;
    }
    let range = range_refusal(255, entry);
    if range != 0 {
        return range;
    }
    let through = passthrough_refusal(passthrough, instructions);
    if through != 0 {
        return through;
    }
    let place = entry_refusal(instructions, words::word_of(entry) as usize);
    if place != 0 {
        return place;
    }
    room_refusal(passthrough.len(), room)
}

// A refusal by its number; 8 and 9 have names.
fn refused(number: u32) -> Unpacked
    ensures { (unpacked_reply result ≡ record { number = number; values = [] }) × (is_named result ≡ true) }
{
    if number == 8 {
        return Unpacked::Direct;
    }
    if number == 9 {
        return Unpacked::Indirect;
    }
    Unpacked::Refused(number)
}

// Passthrough at i afterwards, as 0 and 1.
fn passthrough_at(instructions: &[i32], entry: usize, passthrough: &[u8], i: usize) -> u8
    ensures { result ≡ passthrough_at instructions.now entry passthrough.now i }
{
    if i == entry {
        if is_redirect(instructions, entry) {
            return 1;
        }
    }
    if words::slices::item_at(passthrough, i) == 0 {
        0
    } else {
        1
    }
}

// Passthrough afterwards, at the front of a list that has room for it.
fn put_passthrough(instructions: &[i32], entry: usize, passthrough: &[u8], out: &mut [u8])
    requires { length passthrough.now ≤ length out.old }
    ensures { out.new ≡ passthrough_after instructions.now entry
        passthrough.now ++ drop (length passthrough.now) out.old }
{
    for i in 0..passthrough.len() {
        out[i] = passthrough_at(instructions, entry, passthrough, i);
    }
}

// The entry that a packed entry stands for. Passthrough is copied, as 0 and 1, and set at an entry that is a redirect.
pub fn unpack_entrypoint(
    instructions: &[i32],
    entry: i32,
    passthrough: &[u8],
    out: &mut [u8],
) -> Unpacked
    ensures { UnpacksEntry instructions.now entry passthrough.now
        out.old result out.new }
{
    words::slices::zero_all(out);
    let refusal = unpack_refusal(instructions, entry, passthrough, out.len());
    if refusal != 0 {
        return refused(refusal);
    }
    let place = words::word_of(entry) as usize;
    put_passthrough(instructions, place, passthrough, out);
    Unpacked::Entry(stands_for(instructions, place))
}

// The instruction at index i, for a right character below 128, inserts none above 127.
fn inserts_seven_bit(instructions: &[i32], i: usize) -> bool
    ensures { result ≡ inserts_seven_bit instructions.now i }
{
    if 127 < field_at(instructions, i, 1) % 256 {
        return true;
    }
    if field_at(instructions, i, 2) != 2 {
        return true;
    }
    field_at(instructions, i, 3) % 256 <= 127
}

// The same of every instruction on the chain from an entry.
fn chain_is_seven_bit(instructions: &[i32], entry: usize) -> bool
    ensures { result ≡ all_seven_bit instructions.now (chain_of instructions.now entry) }
{
    let mut at = entry;
    loop {
        let Some((i, on)) = next_instruction(instructions, at) else {
            return true;
        };
        if !inserts_seven_bit(instructions, i) {
            return false;
        }
        at = on;
    }
}

// The same of the entry at place i, where its character is below 128.
fn entry_is_safe(instructions: &[i32], entries: &[i32], i: usize) -> bool
    requires { i < length entries.now / 2 }
    ensures { result ≡ entry_safe instructions.now entries.now i }
{
    if 127 < words::i32s::word_at(entries, 2 * i) {
        return true;
    }
    chain_is_seven_bit(
        instructions,
        words::i32s::word_at(entries, 2 * i + 1) as usize,
    )
}

// The same of every entry.
fn all_are_safe(instructions: &[i32], entries: &[i32]) -> bool
    ensures { result ≡ is_seven_bit_safe instructions.now entries.now }
{
    for i in 0..entries.len() / 2 {
        if !entry_is_safe(instructions, entries, i) {
            return false;
        }
    }
    true
}

// Whether no instruction for two characters below 128 inserts one above 127.
pub fn is_seven_bit_safe(instructions: &[i32], entries: &[i32]) -> SevenBit
    ensures { seven_bit_reply result ≡ seven_bit instructions.now entries.now }
{
    let program = program_refusal(instructions);
    if program != 0 {
        return SevenBit::Refused(program);
    }
    let listed = entries_refusal(65535, entries);
    if listed != 0 {
        return SevenBit::Refused(listed);
    }
    SevenBit::Safe(all_are_safe(instructions, entries))
}
