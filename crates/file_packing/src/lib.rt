// The lig/kern program of a font as a font file holds it: its kerns shared, each value once, and its entries packed.
#![tactic(auto)]

ghost use Rattle.std.specs.Prelude.{◌≡◌, [], ◌∷◌, ℕ, ◌≤◌, pos, length};
ghost use Rattle.lang.specs.Checks.{or_else};
ghost use Rattle.lang.specs.Answers.{reply_of, room_refusal, written_reply};
ghost use Rattle.pack.specs.Packing.{packed_reply};
ghost use Rattle.files.specs.Writing.{writable, pack_font_refusal, pack_font_number, packed_font_reply, PacksFont};

use files::PackedFont;
use lang::Written;
use pack::{Packed, pack_entrypoints};
use program_checks::program_refusal;
use program_kerns::{pack_kerns, unpack_kerns};
use program_limits::{kerns_refusal, room_refusal};
use words::slices::zero_all;

// 4, 10 or 11, which entries, a boundary character and a left entry decide alone: an empty program is packed with them.
fn entered_refusal(entries: &[i32], boundary: i32, left_entry: i32) -> u32
    ensures { result ≡ pack_font_refusal (writable [] [] entries.now boundary left_entry) }
{
    let none = [0i32; 0];
    let mut program = [0i32; 1028];
    let mut packed = [0i32; 512];
    let answer = pack_entrypoints(
        &none,
        entries,
        boundary,
        left_entry,
        &mut program,
        &mut packed,
    );
    match answer {
        Packed::Refused(n) => n,
        Packed::Sizes(_, _, _) => 0,
    }
}

// 15: a list is shorter than any font's.
fn short_refusal(room: usize, kern_room: usize, entry_room: usize) -> u32
    ensures { result ≡ or_else (room_refusal 132096 room)
        (or_else (room_refusal 32767 kern_room) (room_refusal 512 entry_room)) }
{
    if room < 132096 {
        return 15;
    }
    if kern_room < 32767 {
        return 15;
    }
    room_refusal(512, entry_room)
}

// 1, 2, 3, 4, 10, 11 or 15, the first of them that holds.
fn font_refusal(
    instructions: &[i32],
    kerns: &[i32],
    entries: &[i32],
    boundary: i32,
    left_entry: i32,
    room: usize,
    kern_room: usize,
    entry_room: usize,
) -> u32
    ensures { result ≡ pack_font_number
        (writable instructions.now kerns.now entries.now boundary left_entry) room
        kern_room entry_room }
{
    let program = program_refusal(instructions);
    if program != 0 {
        return program;
    }
    let many = kerns_refusal(kerns);
    if many != 0 {
        return many;
    }
    let entered = entered_refusal(entries, boundary, left_entry);
    let short = short_refusal(room, kern_room, entry_room);
    if entered != 0 {
        return entered;
    }
    short
}

// The answer, from those of sharing the kerns and of packing the entries.
fn sizes_of(shared: Written, packed: Packed) -> PackedFont
    ensures { (k n offset redirects : ℕ) → written_reply shared ≡ reply_of 0 (pos k ∷ []) →
        packed_reply packed ≡ reply_of 0 (pos n ∷ pos offset ∷ pos redirects ∷ []) →
        packed_font_reply result ≡ reply_of 0 (pos n ∷ pos k ∷ []) }
{
    match shared {
        Written::Refused(number) => PackedFont::Refused(number),
        Written::Count(k) => match packed {
            Packed::Refused(number) => PackedFont::Refused(number),
            Packed::Sizes(n, _, _) => PackedFont::Sizes(n, k),
        },
    }
}

// A font that is taken, and lists that are long enough: each kern index becomes the kern there; each kern, the index of
// its value, in `numbers`; and then the entries are packed.
fn pack_taken(
    instructions: &[i32],
    kerns: &[i32],
    entries: &[i32],
    boundary: i32,
    left_entry: i32,
    numbers: &mut [i32],
    out: &mut [i32],
    kerns_out: &mut [i32],
    entries_out: &mut [i32],
) -> PackedFont
    requires entries_out_value { pack_font_number
        (writable instructions.now kerns.now entries.now boundary left_entry) (length out.old)
        (length kerns_out.old) (length entries_out.old) ≡ 0 }
    requires in_bounds { 131068 ≤ length numbers.old }
    ensures { PacksFont
        (writable instructions.now kerns.now entries.now boundary left_entry)
        out.old kerns_out.old entries_out.old result out.new
        kerns_out.new entries_out.new }
{
    let n = instructions.len();
    pack_kerns(instructions, kerns, out);
    let shared = unpack_kerns(&out[..n], numbers, kerns_out);
    let packed = pack_entrypoints(
        &numbers[..n],
        entries,
        boundary,
        left_entry,
        out,
        entries_out,
    );
    sizes_of(shared, packed)
}

// The kerns of a font shared, each value once, and its entries packed. Answers how many words of the lig/kern section
// and how many kerns there are. On a refusal, 1, 2, 3, 4, 10, 11 or 15, every list is zero.
pub fn pack_font(
    instructions: &[i32],
    kerns: &[i32],
    entries: &[i32],
    boundary: i32,
    left_entry: i32,
    out: &mut [i32],
    kerns_out: &mut [i32],
    entries_out: &mut [i32],
) -> PackedFont
    ensures { PacksFont
        (writable instructions.now kerns.now entries.now boundary left_entry)
        out.old kerns_out.old entries_out.old result out.new
        kerns_out.new entries_out.new }
{
    let refusal = font_refusal(
        instructions,
        kerns,
        entries,
        boundary,
        left_entry,
        out.len(),
        kerns_out.len(),
        entries_out.len(),
    );
    if refusal != 0 {
        zero_all(out);
        zero_all(kerns_out);
        zero_all(entries_out);
        return PackedFont::Refused(refusal);
    }
    let mut numbers = [0i32; 131068];
    pack_taken(
        instructions,
        kerns,
        entries,
        boundary,
        left_entry,
        &mut numbers,
        out,
        kerns_out,
        entries_out,
    )
}
