// Packing taken back (font_unpackings/specs/Unpackings.antt): one pass finds the redirects in front, one looks at each
// of the font's own instructions, and one at each entry; then what is left is written.
#![tactic(auto)]

ghost use Rattle.std.specs.Prelude.{◌≡◌, not, ◌+◌, ◌-◌, ◌*◌, ◌/◌, ◌<◌, ◌≤◌, leb, ltb, pos, length, get_or, take, drop};
ghost use Rattle.words.specs.Words.{word_of, number_of};
ghost use Rattle.words.specs.Lists.{Appending};
ghost use Rattle.lang.specs.Every.{both, every};
ghost use Rattle.lang.specs.Records.{is_kind};
ghost use Rattle.lang.specs.Checks.{entry_at, entries_refusal};
ghost use Rattle.font_unpackings.specs.Unpackings.{in_front, own_end, own_start, left_stands, stands_packed};
ghost use Rattle.font_unpackings.specs.Unpackings.{moved_entries};
ghost use Rattle.font_unpackings.specs.Unpackings.{moved_number, left_moved_back, unpack_font_refusal, UnpacksFont};
ghost use Rattle.font_unpack.specs.OwnPart.{own_part_count, FindsPart};

use entry_targets::is_redirect;
use font_unpackings::UnpackedFont;
use program_checks::{absent_refusal, program_refusal};
use program_limits::{entries_refusal, room_refusal};
use words::i32s::{put_word, word_at};
use words::slices::zero_all;
use words::{number_of, word_of};

// Whether redirects stand only where packing puts them; how many instructions are taken away in front, and how many
// are left.
#[derive(Clone, Copy)]
struct OwnPart {
    packed: bool,
    front: usize,
    count: usize,
}

// How many redirects stand in front, among the first `end` instructions.
fn in_front(instructions: &[i32], end: usize) -> usize
    ensures { result ≡ in_front instructions.now end }
{
    for i in 0..end {
        if !is_redirect(instructions, i) {
            return i;
        }
    }
    end
}

// Where the font's own instructions end; the left entry is given by its 32 bits.
fn own_end(instructions: &[i32], left: u32) -> usize
    ensures { result ≡ own_end instructions.now (number_of left) }
{
    if left < 2147483648 {
        (instructions.len() / 4).saturating_sub(1)
    } else {
        instructions.len() / 4
    }
}

// No instruction of `start` to `end` is a redirect.
fn are_plain(instructions: &[i32], start: usize, end: usize) -> bool
    requires { start ≤ end }
    ensures { result ≡ every (end - start) (λ i. not (is_kind 3 instructions.now (start + i))) }
{
    for i in 0..end - start {
        if is_redirect(instructions, start + i) {
            return false;
        }
    }
    true
}

// An entry leads to an instruction of `start` to `end`.
fn is_own(entry: usize, start: usize, end: usize) -> bool
    ensures { result ≡ both (leb start entry) (ltb entry end) }
{
    start <= entry && entry < end
}

// Every entry does.
fn are_own(entries: &[i32], start: usize, end: usize) -> bool
    ensures { result ≡ every (length entries.now / 2)
        (λ i. both (leb start (word_of (entry_at entries.now i)))
        (ltb (word_of (entry_at entries.now i)) end)) }
{
    for i in 0..entries.len() / 2 {
        let entry = word_at(entries, 2 * i + 1) as usize;
        if !is_own(entry, start, end) {
            return false;
        }
    }
    true
}

// A left entry leads to an instruction of `start` to `end`, and the one at `end` is a redirect.
fn left_stands(instructions: &[i32], left: u32, start: usize, end: usize) -> bool
    requires { (end ≡ own_end instructions.now (number_of left))
        × (start ≡ own_start instructions.now (number_of left)) }
    ensures { result ≡ left_stands instructions.now (number_of left) }
{
    if 2147483648 <= left {
        return true;
    }
    if !is_own(left as usize, start, end) {
        return false;
    }
    is_redirect(instructions, end)
}

// Redirects stand only where packing puts them.
fn stands_packed(instructions: &[i32], entries: &[i32], left: u32, start: usize, end: usize) -> bool
    requires { (end ≡ own_end instructions.now (number_of left))
        × (start ≡ own_start instructions.now (number_of left)) }
    ensures { result ≡ stands_packed instructions.now entries.now (number_of left) }
{
    if !are_plain(instructions, start, end) {
        return false;
    }
    if !are_own(entries, start, end) {
        return false;
    }
    left_stands(instructions, left, start, end)
}

// What is taken away, and what is left.
fn find_part(instructions: &[i32], entries: &[i32], left: u32) -> OwnPart
    ensures { FindsPart instructions.now entries.now (number_of left) result }
{
    let end = own_end(instructions, left);
    let start = in_front(instructions, end);
    if stands_packed(instructions, entries, left, start, end) {
        OwnPart {
            packed: true,
            front: start,
            count: end - start,
        }
    } else {
        OwnPart {
            packed: false,
            front: 0,
            count: instructions.len() / 4,
        }
    }
}

// 1, else 2, else 4, else 15, where `count` instructions are left.
fn unpack_refusal(
    instructions: &[i32],
    entries: &[i32],
    left_entry: i32,
    count: usize,
    room: usize,
    entry_room: usize,
) -> u32
    requires { count ≡ own_part_count instructions.now entries.now left_entry }
    ensures { result ≡ unpack_font_refusal instructions.now entries.now left_entry room
        entry_room }
{
    let program = program_refusal(instructions);
    if program != 0 {
        return program;
    }
    let entered = entries_refusal(65535, entries);
    if entered != 0 {
        return entered;
    }
    let absent = absent_refusal(65535, left_entry);
    if absent != 0 {
        return absent;
    }
    let size = room_refusal(4 * count, room);
    if size != 0 {
        return size;
    }
    room_refusal(entries.len(), entry_room)
}

// `count` instructions from `front` on, written to the front of the output.
fn put_own(instructions: &[i32], front: usize, count: usize, out: &mut [i32])
    requires { (4 * front + 4 * count ≤ length instructions.now) × (4 * count ≤ length out.old) }
    ensures { Appending (take (4 * count) (drop (4 * front) instructions.now))
        out.old out.new }
{
    for j in 0..4 * count {
        put_word(out, j, word_at(instructions, 4 * front + j));
    }
}

// An entry moved back, by its 32 bits; -1 stays.
fn moved_back(word: u32, front: usize) -> u32
    ensures { number_of result ≡ left_moved_back (number_of word) front }
{
    if word < 2147483648 {
        (word as usize).saturating_sub(front) as u32
    } else {
        word
    }
}

// Number j of the entries: a character as it was, or its entry moved back.
fn moved_number(entries: &[i32], front: usize, j: usize) -> u32
    requires { word_of (get_or entries.now j (pos 0)) < 2147483648 }
    ensures { number_of result ≡ moved_number entries.now front j }
{
    let word = word_at(entries, j);
    if j % 2 == 0 {
        word
    } else {
        moved_back(word, front)
    }
}

// The entries, moved back, written to the front of the output.
fn put_entries(entries: &[i32], front: usize, out: &mut [i32])
    requires { (entries_refusal 65535 entries.now ≡ 0) × (length entries.now ≤ length out.old) }
    ensures { Appending (moved_entries entries.now front) out.old
        out.new }
{
    for j in 0..entries.len() {
        put_word(out, j, moved_number(entries, front, j));
    }
}

// A font as it was before packing: its own instructions and its entries, moved back, to the fronts of two lists. On a
// refusal both are zero.
pub fn unpacked_font(
    instructions: &[i32],
    entries: &[i32],
    left_entry: i32,
    out: &mut [i32],
    entries_out: &mut [i32],
) -> UnpackedFont
    ensures { UnpacksFont instructions.now entries.now left_entry
        out.old entries_out.old result out.new entries_out.new }
{
    zero_all(out);
    zero_all(entries_out);
    let left = word_of(left_entry);
    let own = find_part(instructions, entries, left);
    let n = own.count;
    let room = out.len();
    let entry_room = entries_out.len();
    let refusal = unpack_refusal(instructions, entries, left_entry, n, room, entry_room);
    if refusal != 0 {
        return UnpackedFont::Refused(refusal);
    }
    put_own(instructions, own.front, n, out);
    put_entries(entries, own.front, entries_out);
    if own.packed {
        UnpackedFont::Own(own.front, n, number_of(moved_back(left, own.front)))
    } else {
        UnpackedFont::Kept
    }
}
