// Kern values and kern indices, one for the other, after `pack_kerns` and `unpack_kerns` of ligkern/lang.rs (lines 624
// to 654). What the Rust changes in place becomes a second lent list.
#![tactic(auto)]

ghost use Rattle.std.specs.Prelude.{◌≡◌, ◌++◌, ◌≤◌, length, drop, pos};
ghost use Rattle.words.specs.Words.{Word};
ghost use Rattle.words.specs.Lists.{tabulate};
ghost use Rattle.lang.specs.Records.{field, is_kind};
ghost use Rattle.lang.specs.Checks.{program_refusal, or_else};
ghost use Rattle.lang.specs.Answers.{room_refusal};
ghost use Rattle.program_kerns.specs.Kerns.{changed, kern_at, packed, pack_refusal, kern_place, PacksKerns};
ghost use Rattle.program_kerns.specs.Kerns.{UnpacksKerns};
ghost use Rattle.program_kerns.specs.Sharing.{Linked};

mod share;

use crate::share::{gather, place_of};
use lang::Written;
use lang::instruction::field_at;
use program_checks::program_refusal;
use program_limits::{kerns_refusal, room_refusal};

// 1, 2, 3 or 15.
fn pack_refusal(instructions: &[i32], kerns: &[i32], room: usize) -> u32
    ensures { result ≡ pack_refusal instructions.now kerns.now room }
{
    let program = program_refusal(instructions);
    if program != 0 {
        return program;
    }
    let many = kerns_refusal(kerns);
    if many != 0 {
        return many;
    }
    room_refusal(instructions.len(), room)
}

// Number j of the program in which each kern index is the kern there, as its 32 bits.
fn packed_word(instructions: &[i32], kerns: &[i32], j: usize) -> u32
    ensures { Word
        (changed instructions.now (is_kind 1 instructions.now) (pos 0)
        (kern_at instructions.now kerns.now) j) result }
{
    if field_at(instructions, j / 4, 2) != 1 {
        return words::i32s::word_at(instructions, j);
    }
    if j % 4 == 2 {
        return 0;
    }
    if j % 4 == 3 {
        return words::i32s::word_at(kerns, field_at(instructions, j / 4, 3) as usize);
    }
    words::i32s::word_at(instructions, j)
}

fn write_packed(instructions: &[i32], kerns: &[i32], out: &mut [i32])
    requires { length instructions.now ≤ length out.old }
    ensures { out.new ≡ packed instructions.now kerns.now
        ++ drop (length instructions.now) out.old }
{
    for j in 0..instructions.len() {
        words::i32s::put_word(out, j, packed_word(instructions, kerns, j));
    }
}

// Each kern index becomes the kern there, or past the list a kern of zero. Answers the count of instructions.
pub fn pack_kerns(instructions: &[i32], kerns: &[i32], out: &mut [i32]) -> Written
    ensures { PacksKerns instructions.now kerns.now out.old result
        out.new }
{
    words::slices::zero_all(out);
    let refusal = pack_refusal(instructions, kerns, out.len());
    if refusal != 0 {
        return Written::Refused(refusal);
    }
    write_packed(instructions, kerns, out);
    Written::Count(instructions.len() / 4)
}

// 1, 2 or 15: what is known before the kerns are counted.
fn unpack_refusal(instructions: &[i32], room: usize) -> u32
    ensures { result ≡ or_else (program_refusal instructions.now)
        (room_refusal (length instructions.now) room) }
{
    let program = program_refusal(instructions);
    if program != 0 {
        return program;
    }
    room_refusal(instructions.len(), room)
}

// Number j of the program in which each kern value is its place in `kerns`, as its 32 bits.
fn unpacked_word(instructions: &[i32], kerns: &[i32], links: &[u16; 65536], j: usize) -> u32
    requires { Linked kerns.now links.now }
    ensures { Word
        (changed instructions.now (is_kind 0 instructions.now) (pos 1)
        (λ i. pos (kern_place (field instructions.now i 3) kerns.now)) j) result }
{
    if field_at(instructions, j / 4, 2) != 0 {
        return words::i32s::word_at(instructions, j);
    }
    if j % 4 == 2 {
        return 1;
    }
    if j % 4 == 3 {
        return place_of(kerns, links, field_at(instructions, j / 4, 3)) as u32;
    }
    words::i32s::word_at(instructions, j)
}

fn write_unpacked(instructions: &[i32], kerns: &[i32], links: &[u16; 65536], out: &mut [i32])
    requires linked { Linked kerns.now links.now }
    requires instructions_in_bounds { length instructions.now ≤ length out.old }
    ensures { out.new ≡ tabulate (length instructions.now)
        (changed instructions.now (is_kind 0 instructions.now) (pos 1)
        (λ i. pos (kern_place (field instructions.now i 3) kerns.now)))
        ++ drop (length instructions.now) out.old }
{
    for j in 0..instructions.len() {
        words::i32s::put_word(out, j, unpacked_word(instructions, kerns, links, j));
    }
}

// Each kern value becomes its index in the list of kerns, which holds each value once, in the order in which they first
// appear. Answers the count of kerns.
pub fn unpack_kerns(instructions: &[i32], out: &mut [i32], kerns: &mut [i32]) -> Written
    ensures { UnpacksKerns instructions.now out.old kerns.old result
        out.new kerns.new }
{
    words::slices::zero_all(out);
    words::slices::zero_all(kerns);
    let refusal = unpack_refusal(instructions, out.len());
    if refusal != 0 {
        return Written::Refused(refusal);
    }
    let mut links = [0u16; 65536];
    let m = gather(instructions, kerns, &mut links);
    if kerns.len() < m {
        words::slices::zero_all(kerns);
        return Written::Refused(15);
    }
    write_unpacked(instructions, &kerns[..m], &links, out);
    Written::Count(m)
}
