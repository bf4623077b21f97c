// The refusals of repair before anything is done, 1 to 4 (R230 to R233): those of the lists, of the boundary character,
// the left entry and the replacement, and of passthrough.
#![tactic(auto)]

ghost use Rattle.std.specs.Prelude.{◌≡◌, List, ℕ, leb};
ghost use Rattle.words.specs.Words.{word_of};
ghost use Rattle.lang.specs.Checks.{program_refusal, kerns_refusal, entries_refusal, absent_refusal, unless, or_else};
ghost use Rattle.repairs.specs.Repairs.{damaged_of, damaged_refusal};

use program_checks::{absent_refusal, program_refusal};
use program_limits::{entries_refusal, kerns_refusal, passthrough_refusal};

// 4 of the boundary character, the left entry or the replacement.
fn edge_refusal(boundary: i32, left_entry: i32, replacement: i32) -> u32
    ensures { result ≡ or_else (absent_refusal 255 boundary)
        (or_else (absent_refusal 65535 left_entry) (unless 4 (leb (word_of replacement) 255))) }
{
    let at_boundary = absent_refusal(255, boundary);
    if at_boundary != 0 {
        return at_boundary;
    }
    let at_left = absent_refusal(65535, left_entry);
    if at_left != 0 {
        return at_left;
    }
    if words::word_of(replacement) <= 255 {
        0
    } else {
        4
    }
}

// 1 to 3, and 4 of the entries.
fn lists_refusal(instructions: &[i32], kerns: &[i32], entries: &[i32]) -> u32
    ensures { result ≡ or_else (program_refusal instructions.now)
        (or_else (kerns_refusal kerns.now) (entries_refusal 255 entries.now)) }
{
    let program = program_refusal(instructions);
    if program != 0 {
        return program;
    }
    let of_kerns = kerns_refusal(kerns);
    if of_kerns != 0 {
        return of_kerns;
    }
    entries_refusal(255, entries)
}

// 1 to 4, the lowest; 0 of a font that is repaired. No refusal is of the characters that exist.
pub fn damaged_refusal(
    instructions: &[i32],
    kerns: &[i32],
    entries: &[i32],
    boundary: i32,
    left_entry: i32,
    replacement: i32,
    passthrough: &[u8],
) -> u32
    ensures { (existing : List ℕ) →
        result ≡ damaged_refusal
        (damaged_of instructions.now kerns.now entries.now boundary
        left_entry replacement existing passthrough.now) }
{
    let lists = lists_refusal(instructions, kerns, entries);
    if lists != 0 {
        return lists;
    }
    let edges = edge_refusal(boundary, left_entry, replacement);
    if edges != 0 {
        return edges;
    }
    passthrough_refusal(passthrough, instructions)
}
