// Compiling (R90 to R94), after ligkern/compiler.rs (reference `CompiledProgram::compile`). The stages are crates of
// their own, one on top of the other, each of which takes the font as it is lent:
//   compile_collect, compile_prepare  a row of the work buffer for each pair that has a rule
//   compile_settle                    which pairs finish, and their lasts
//   compile_loops                     the loop list
//   compile_op_counts                 how many ops each pair has
//   compile_ops, compile_lists        the tables
// A size that is asked for, or a magnification, is there the design size of that size (R357); its number comes last.
#![tactic(auto)]

ghost use Rattle.std.specs.Prelude.{◌≡◌};
ghost use Rattle.tfm.specs.Scaled.{asked_refusal, design_at};
ghost use Rattle.lang.specs.Checks.{or_else, absent_refusal, design_refusal};
ghost use Rattle.fonts.specs.Fonts.{font_of};
ghost use Rattle.fonts.specs.Compiled.{Compiles, font_refusal};
ghost use Rattle.compile.specs.Late.{late_answer};

use c_values::lists::keep_list;
use compile_lists::write_lists;
use fonts::Compiled;
use program_checks::{absent_refusal, program_refusal};
use program_limits::{design_refusal, entries_refusal, kerns_refusal};
use tfm::{asked_refusal, design_at};
use words::slices::zero_all;

// 4 of the boundary or the left entry, else 5.
fn edge_refusal(boundary: i32, left_entry: i32, design_size: i32) -> u32
    ensures { result ≡ or_else (absent_refusal 255 boundary)
        (or_else (absent_refusal 65535 left_entry) (design_refusal design_size)) }
{
    let at_boundary = absent_refusal(255, boundary);
    if at_boundary != 0 {
        return at_boundary;
    }
    let at_left = absent_refusal(65535, left_entry);
    if at_left != 0 {
        return at_left;
    }
    design_refusal(design_size)
}

// 1 to 5, the lowest.
pub fn font_refusal(
    instructions: &[i32],
    kerns: &[i32],
    entries: &[i32],
    boundary: i32,
    left_entry: i32,
    design_size: i32,
) -> u32
    ensures { result ≡ font_refusal
        (font_of instructions.now kerns.now entries.now boundary left_entry
        design_size) }
{
    let program = program_refusal(instructions);
    if program != 0 {
        return program;
    }
    let of_kerns = kerns_refusal(kerns);
    if of_kerns != 0 {
        return of_kerns;
    }
    let of_entries = entries_refusal(65535, entries);
    if of_entries != 0 {
        return of_entries;
    }
    edge_refusal(boundary, left_entry, design_size)
}

// The number of the size where the font itself is taken; else what was answered.
fn late_answer(number: u32, compiled: Compiled) -> Compiled
    ensures { result ≡ late_answer number compiled }
{
    if number == 0 {
        return compiled;
    }
    match compiled {
        Compiled::Tables(_, _, _) => Compiled::Refused(number),
        Compiled::Refused(n) => Compiled::Refused(n),
    }
}

// Compiles a font into the pair table, the ops and the loop list, its kerns scaled at the design size or, where one is
// not zero, at a size or by a magnification. Work is left zero, and so is every list on a refusal.
pub fn compile(
    instructions: &[i32],
    kerns: &[i32],
    entries: &[i32],
    boundary: i32,
    left_entry: i32,
    design_size: i32,
    size: i32,
    magnification: i32,
    pairs: &mut [i32],
    ops: &mut [i32],
    loops: &mut [i32],
    work: &mut [u32],
) -> Compiled
    ensures { Compiles
        (font_of instructions.now kerns.now entries.now boundary left_entry
        (design_at design_size size magnification)) (asked_refusal design_size size magnification)
        pairs.old ops.old loops.old work.old result
        pairs.new ops.new loops.new work.new }
{
    let design = design_at(design_size, size, magnification);
    let number = font_refusal(instructions, kerns, entries, boundary, left_entry, design);
    if number != 0 {
        zero_all(pairs);
        zero_all(ops);
        zero_all(loops);
        zero_all(work);
        return Compiled::Refused(number);
    }
    let compiled = write_lists(
        instructions,
        kerns,
        entries,
        left_entry,
        design,
        pairs,
        ops,
        loops,
        work,
    );
    let late = asked_refusal(design_size, size, magnification);
    keep_list(late, pairs);
    keep_list(late, ops);
    keep_list(late, loops);
    late_answer(late, compiled)
}
