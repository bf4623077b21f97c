// The first stage of compiling, after ligkern/compiler.rs (reference `CompiledProgram::compile`, lines 113 to 224): the
// rows of a font in the work buffer; specs/Rows.antt of crate `compiling` says what a row holds. Crate
// `compile_collect` writes the pairs that have a rule, and `encode` what their rules do.
#![tactic(auto)]

ghost use Rattle.std.specs.Prelude.{◌/◌, min, length, ℤ};
ghost use Rattle.fonts.specs.Fonts.{font_of};
ghost use Rattle.compile_prepare.specs.Prepares.{Prepares};

mod encode;

use crate::encode::encode;
use compiling::{Collected, Prepared};

// The rows of a font, with their rules, in a work buffer of sixteen u32 a pair: at most `room` of them. 1 where there
// are over 32,767 instructions, then 12, with the work all zeros. Answers also whether every kern that is a rule
// scales.
pub fn prepare(
    instructions: &[i32],
    kerns: &[i32],
    entries: &[i32],
    left_entry: i32,
    design_size: i32,
    work: &mut [u32],
    room: usize,
) -> Prepared
    ensures { (b : ℤ) →
        Prepares
        (font_of instructions.now kerns.now entries.now b left_entry
        design_size) (min room (length work.old / 16)) work.old work.new
        result }
{
    match compile_collect::collect(instructions, entries, left_entry, work, room) {
        Collected::Refused(number) => Prepared::Refused(number),
        Collected::Rows(n, e) => {
            let scaled = encode(instructions, kerns, design_size, work, n);
            Prepared::Rows(n, e, scaled)
        }
    }
}
