// Packing of entries into one byte each, after `pack_entrypoints` of ligkern/lang.rs (lines 553 to 622). What the Rust
// changes in place becomes two more lent lists.
#![tactic(auto)]

ghost use Rattle.std.specs.Prelude.{◌≡◌, ◌++◌, cond, ℕ, ◌+◌, ◌*◌, ◌≤◌, ◌<◌, eqb, pos, length, get_or, replicate};
ghost use Rattle.std.specs.Int.Signed.{non_neg};
ghost use Rattle.words.specs.Words.{word_of, number_of};
ghost use Rattle.words.specs.Lists.{tabulate, Appending};
ghost use Rattle.lang.specs.Checks.{entries_refusal, or_else};
ghost use Rattle.lang.specs.Answers.{room_refusal};
ghost use Rattle.pack_labels.specs.Labels.{largest, offset_by};
ghost use Rattle.pack.specs.Packing.{Packs, packable, front, back, left_or, entry_number, redirect_refusal};
ghost use Rattle.pack.specs.Packing.{shift_refusal, packable_refusal};

mod numbers;

use crate::numbers::{is_present, place_among, present_or_zero, redirect_number};
use pack_labels::label;
use program_checks::{absent_refusal, program_refusal};
use program_limits::entries_refusal;

// What packing answers.
#[derive(Clone, Copy)]
pub enum Packed {
    // The count of instructions now, the offset of the old ones, and the number of redirects.
    Sizes(usize, usize, usize),
    Refused(u32),
}

// 1, else 2, else 4: what is lent is no font.
fn packable_refusal(instructions: &[i32], entries: &[i32], boundary: i32, left_entry: i32) -> u32
    ensures { result ≡ packable_refusal
        (packable instructions.now entries.now boundary left_entry) }
{
    let program = program_refusal(instructions);
    if program != 0 {
        return program;
    }
    let entered = entries_refusal(65535, entries);
    if entered != 0 {
        return entered;
    }
    let bounded = absent_refusal(255, boundary);
    if bounded != 0 {
        return bounded;
    }
    absent_refusal(65535, left_entry)
}

// How many numbers the packed instructions are: those in front, the old ones, and the redirect to the left boundary's
// entry.
fn packed_size(instructions: &[i32], left: u32, offset: usize) -> usize
    requires { offset < 65536 }
    ensures { result ≡ 4 * offset + length instructions.now
        + length (back (number_of left) offset) }
{
    if is_present(left) {
        4 * offset + instructions.len() + 4
    } else {
        4 * offset + instructions.len()
    }
}

// 11: the largest label, or the left entry, passes 65,535 once it is shifted.
fn shift_refusal(labels: &[u32], left: u32, offset: usize) -> u32
    requires { offset < 65536 }
    ensures { result ≡ shift_refusal (largest labels.now) (left_or (number_of left)) offset }
{
    if 65535 < (words::slices::item_at(labels, 0) as usize) + offset {
        return 11;
    }
    if 65535 < (present_or_zero(left) as usize) + offset {
        11
    } else {
        0
    }
}

// 10, else 11, else 15, of a font that is taken so far, from its labels and sizes: 256 redirects, a shifted entry that
// passes 65,535, an output that is too short.
fn labels_refusal(
    labels: &[u32],
    redirects: usize,
    offset: usize,
    left: u32,
    size: usize,
    room: usize,
    entry_size: usize,
    entry_room: usize,
) -> u32
    requires { offset < 65536 }
    ensures { result ≡ or_else (redirect_refusal redirects)
        (or_else (shift_refusal (largest labels.now) (left_or (number_of left)) offset)
        (or_else (room_refusal size room) (room_refusal entry_size entry_room))) }
{
    let shift = shift_refusal(labels, left, offset);
    if 255 < redirects {
        return 10;
    }
    if shift != 0 {
        return shift;
    }
    if room < size {
        return 15;
    }
    if entry_room < entry_size { 15 } else { 0 }
}

// The target of the instruction in front at i: the shifted label i, or 0 where there are no redirects.
fn front_target(labels: &[u32], redirects: usize, offset: usize, i: usize) -> u32
    requires { (k : ℕ) → get_or labels.now k 0 + offset ≤ 65535 }
    ensures { result ≡ cond (eqb redirects 0) 0 (get_or labels.now i 0 + offset) }
{
    if redirects == 0 {
        0
    } else {
        words::slices::item_at(labels, i) + (offset as u32)
    }
}

// Number m of the instruction at the end.
fn back_number(left: u32, offset: usize, m: usize) -> u32
    requires { left_or (number_of left) + offset ≤ 65535 }
    ensures { number_of result ≡ get_or (back (number_of left) offset) m (pos 0) }
{
    if is_present(left) {
        redirect_number(m, 0, left + (offset as u32))
    } else {
        0
    }
}

// Number j of the packed instructions.
fn packed_number(
    instructions: &[i32],
    boundary: u32,
    left: u32,
    labels: &[u32],
    redirects: usize,
    offset: usize,
    j: usize,
) -> u32
    requires { (offset ≡ offset_by (non_neg (number_of boundary)) redirects)
        × ((redirects ≤ length labels.now)
        × (((k : ℕ) → get_or labels.now k 0 + offset ≤ 65535)
        × (left_or (number_of left) + offset ≤ 65535))) }
    ensures { number_of result ≡ get_or
        (front (number_of boundary) redirects offset labels.now ++ instructions.now
        ++ back (number_of left) offset) j (pos 0) }
{
    if j < 4 * offset {
        let target = front_target(labels, redirects, offset, j / 4);
        return redirect_number(j % 4, present_or_zero(boundary), target + 65536);
    }
    let old = j - 4 * offset;
    if old < instructions.len() {
        return words::i32s::word_at(instructions, old);
    }
    back_number(left, offset, old - instructions.len())
}

// The packed instructions, written to the front of the output.
fn put_instructions(
    instructions: &[i32],
    boundary: u32,
    left: u32,
    labels: &[u32],
    redirects: usize,
    offset: usize,
    out: &mut [i32],
)
    requires offset_value { (offset ≡ offset_by (non_neg (number_of boundary)) redirects)
        × ((redirects ≤ length labels.now)
        × (((k : ℕ) → get_or labels.now k 0 + offset ≤ 65535)
        × (left_or (number_of left) + offset ≤ 65535))) }
    requires offset_in_bounds { length
        (front (number_of boundary) redirects offset labels.now ++ instructions.now
        ++ back (number_of left) offset) ≤ length out.old }
    ensures { Appending
        (front (number_of boundary) redirects offset labels.now ++ instructions.now
        ++ back (number_of left) offset) out.old out.new }
{
    let size = packed_size(instructions, left, offset);
    for j in 0..size {
        let number = packed_number(instructions, boundary, left, labels, redirects, offset, j);
        words::i32s::put_word(out, j, number);
    }
}

// Number j of the packed entries: a character as it was lent, or a packed entry.
fn entry_number(entries: &[i32], labels: &[u32], redirects: usize, offset: usize, j: usize) -> u32
    requires { (redirects ≤ 255) × (word_of (get_or entries.now j (pos 0)) + offset < 2147483648) }
    ensures { number_of result ≡ entry_number entries.now redirects offset labels.now j }
{
    let word = words::i32s::word_at(entries, j);
    if j % 2 == 0 {
        return word;
    }
    let place = place_among(labels, word);
    if place < redirects {
        place as u32
    } else {
        word + (offset as u32)
    }
}

// The entries, packed, written to the front of the output in the lent order.
fn put_entries(entries: &[i32], labels: &[u32], redirects: usize, offset: usize, out: &mut [i32])
    requires { (redirects ≤ 255)
        × ((offset ≤ 256)
        × ((entries_refusal 65535 entries.now ≡ 0) × (length entries.now ≤ length out.old))) }
    ensures { Appending
        (tabulate (length entries.now)
        (entry_number entries.now redirects offset labels.now)) out.old
        out.new }
{
    for j in 0..entries.len() {
        let number = entry_number(entries, labels, redirects, offset, j);
        words::i32s::put_word(out, j, number);
    }
}

// A font that is taken so far, and outputs that are zero: its labels, what they refuse, and else both outputs and the
// answer.
fn pack_font(
    instructions: &[i32],
    entries: &[i32],
    boundary: u32,
    left: u32,
    out: &mut [i32],
    entries_out: &mut [i32],
) -> Packed
    requires left_value { packable_refusal (packable instructions.now entries.now (number_of boundary) (number_of left))
        ≡ 0 }
    requires out_value { (out.old ≡ replicate (length out.old) (pos 0))
        × (entries_out.old ≡ replicate (length entries_out.old) (pos 0)) }
    ensures { Packs
        (packable instructions.now entries.now (number_of boundary) (number_of left))
        out.old entries_out.old result out.new entries_out.new }
{
    let mut table = [0u32; 256];
    let found = label(entries, is_present(boundary), &mut table);
    let redirects = found.redirects;
    let offset = found.offset;
    let count = found.count;
    let labels = &table[..count];
    let size = packed_size(instructions, left, offset);
    let refusal = labels_refusal(
        labels,
        redirects,
        offset,
        left,
        size,
        out.len(),
        entries.len(),
        entries_out.len(),
    );
    if refusal != 0 {
        return Packed::Refused(refusal);
    }
    put_instructions(instructions, boundary, left, labels, redirects, offset, out);
    put_entries(entries, labels, redirects, offset, entries_out);
    Packed::Sizes(size / 4, offset, redirects)
}

// The instructions with redirects in front and the left boundary's entry at the end; the entries, packed, in the lent
// order.
pub fn pack_entrypoints(
    instructions: &[i32],
    entries: &[i32],
    boundary: i32,
    left_entry: i32,
    out: &mut [i32],
    entries_out: &mut [i32],
) -> Packed
    ensures { Packs
        (packable instructions.now entries.now boundary left_entry) out.old
        entries_out.old result out.new entries_out.new }
{
    words::slices::zero_all(out);
    words::slices::zero_all(entries_out);
    let font = packable_refusal(instructions, entries, boundary, left_entry);
    if font != 0 {
        return Packed::Refused(font);
    }
    let bound = words::word_of(boundary);
    let left = words::word_of(left_entry);
    pack_font(instructions, entries, bound, left, out, entries_out)
}
