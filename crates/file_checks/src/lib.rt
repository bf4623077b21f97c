// The refusal 18: what no font file holds, or what would make this one too long (files/specs/Writing.antt). Each
// function is a definition there. The lengths of the old file are read once.
#![tactic(auto)]

ghost use Rattle.std.specs.Prelude.{◌≡◌, ◌<◌, ◌/◌, leb, length};
ghost use Rattle.words.specs.Words.{number_of};
ghost use Rattle.lang.specs.Every.{every};
ghost use Rattle.lang.specs.Records.{count, absent_or};
ghost use Rattle.files.specs.Lengths.{lengths_of};
ghost use Rattle.files.specs.Writing.{writable, written_lengths, is_writable, is_in_file, is_entry_writable};
ghost use Rattle.files.specs.Writing.{is_boundary_writable, is_left_writable, writable_refusal};

use file_lengths::{char_start, command_start, lengths_of};
use files::FileLengths;
use lang::instruction::field_at;
use words::i32s::word_at;
use words::slices::item_at;
use words::word_of;

// A next of at most 127, or -1; it is given by its 32 bits.
fn is_next_writable(next: u32) -> bool
    ensures { result ≡ absent_or 127 (number_of next) }
{
    next <= 127 || next == 4294967295
}

// Instruction i can be written.
fn is_writable(instructions: &[i32], kerns: &[i32], i: usize) -> bool
    ensures { result ≡ is_writable instructions.now kerns.now i }
{
    let kind = field_at(instructions, i, 2);
    if kind == 3 {
        return false;
    }
    if !is_next_writable(field_at(instructions, i, 0)) {
        return false;
    }
    if kind == 1 {
        return (field_at(instructions, i, 3) as usize) < kerns.len();
    }
    true
}

// Every instruction can be written.
fn are_writable(instructions: &[i32], kerns: &[i32]) -> bool
    ensures { result ≡ every (count instructions.now)
        (is_writable instructions.now kerns.now) }
{
    for i in 0..instructions.len() / 4 {
        if !is_writable(instructions, kerns, i) {
            return false;
        }
    }
    true
}

// Character c has a word in the old file, whose lengths these are, and its width index is not 0.
fn is_in_file(old: &[u8], lengths: FileLengths, c: u32) -> bool
    requires { lengths ≡ lengths_of old.now }
    ensures { result ≡ is_in_file old.now c }
{
    if c < lengths.bc {
        return false;
    }
    if lengths.ec < c {
        return false;
    }
    let w = char_start(lengths) + ((c - lengths.bc) as usize);
    item_at(old, 4 * w) != 0
}

// Entry i of n instructions can be written.
fn is_entry_writable(old: &[u8], lengths: FileLengths, entries: &[i32], n: usize, i: usize) -> bool
    requires { (lengths ≡ lengths_of old.now) × (i < length entries.now / 2) }
    ensures { result ≡ is_entry_writable old.now entries.now n i }
{
    if !is_in_file(old, lengths, word_at(entries, 2 * i)) {
        return false;
    }
    (word_at(entries, 2 * i + 1) as usize) < n
}

// Every entry can be written.
fn are_entries_writable(old: &[u8], lengths: FileLengths, entries: &[i32], n: usize) -> bool
    requires { lengths ≡ lengths_of old.now }
    ensures { result ≡ every (length entries.now / 2)
        (is_entry_writable old.now entries.now n) }
{
    for i in 0..entries.len() / 2 {
        if !is_entry_writable(old, lengths, entries, n, i) {
            return false;
        }
    }
    true
}

// A boundary character is absent, or there is an instruction; it is given by its 32 bits.
fn is_boundary_writable(boundary: u32, n: usize) -> bool
    ensures { result ≡ is_boundary_writable (number_of boundary) n }
{
    if boundary < 2147483648 {
        return 0 < n;
    }
    true
}

// A left entry is absent, or leads to an instruction; it is given by its 32 bits.
fn is_left_writable(left: u32, n: usize) -> bool
    ensures { result ≡ is_left_writable (number_of left) n }
{
    if left < 2147483648 {
        return (left as usize) < n;
    }
    true
}

// The file then has at most 32,767 words.
fn is_short(lengths: FileLengths, words: usize, shared: usize) -> bool
    ensures { result ≡ leb (written_lengths lengths words shared).lf 32767 }
{
    if 32767 < words {
        return false;
    }
    if 32767 < shared {
        return false;
    }
    command_start(lengths) + words + shared + (lengths.ne as usize) + (lengths.np as usize) <= 32767
}

// 18, or 0: of a font, by how many words its packed program has and how many kerns it shares.
pub fn writable_refusal(
    old: &[u8],
    instructions: &[i32],
    kerns: &[i32],
    entries: &[i32],
    boundary: i32,
    left_entry: i32,
    words: usize,
    shared: usize,
) -> u32
    ensures { result ≡ writable_refusal old.now
        (writable instructions.now kerns.now entries.now boundary left_entry)
        words shared }
{
    let lengths = lengths_of(old);
    let n = instructions.len() / 4;
    if !is_boundary_writable(word_of(boundary), n) {
        return 18;
    }
    if !are_writable(instructions, kerns) {
        return 18;
    }
    if !are_entries_writable(old, lengths, entries, n) {
        return 18;
    }
    if !is_left_writable(word_of(left_entry), n) {
        return 18;
    }
    if is_short(lengths, words, shared) {
        0
    } else {
        18
    }
}
