// The pass of repair over the steps of a program, after `validate_and_fix` of ligkern/lang.rs (lines 722 to 806);
// TFtoPL 70 to 77. Crate `repair_faults` says what is wrong with a step; here it is warned of and repaired.
#![tactic(auto)]

ghost use Rattle.std.specs.Prelude.{◌≡◌, cond, ℕ, ◌*◌, ◌<◌, ◌≤◌, leb};
ghost use Rattle.std.proofs.lemmas.List.Edits.{sets};
ghost use Rattle.words.specs.Words.{number_of};
ghost use Rattle.lang.specs.Every.{both};
ghost use Rattle.lang.specs.Records.{count, is_kind};
ghost use Rattle.repairs.specs.Damaged.{DamagedProgram, program_by};
ghost use Rattle.repairs.specs.Repaired.{repaired_operand, repaired_step};
ghost use Rattle.repairs.specs.Warnings.{skip_warnings, step_warnings};
ghost use Rattle.repair_fixes.specs.Fixing.{Fixes};
ghost use Rattle.repair_fixes.specs.StepFixes.{FaultsAt, PushedUpTo, FixesUpto};

use lang::instruction::field_at;
use repair_faults::faults;
use repair_warnings::push_if;
use repairs::Faults;

// The first number where the test holds, else the second.
fn pick(test: bool, a: u32, b: u32) -> u32
    ensures { result ≡ cond test a b }
{
    if test { a } else { b }
}

// The kind of warning of a right character: 4 of a ligature step, 5 of a kern step.
fn right_warning(instructions: &[i32], i: usize) -> u8
    ensures { result ≡ cond (is_kind 2 instructions.now i) 4 5 }
{
    if field_at(instructions, i, 2) == 2 {
        4
    } else {
        5
    }
}

// The warnings of step i: 9; 4 or 5; 7; 6; 8.
fn warn_step(
    instructions: &[i32],
    replacement: u32,
    f: Faults,
    i: usize,
    warnings: &mut [i32],
    n: usize,
) -> usize
    requires { (replacement < 256) × (i < 32767) × (n < 1048576) }
    ensures { (p : DamagedProgram) → FaultsAt p instructions.now replacement f i →
        PushedUpTo 5 warnings.old n (step_warnings p i) warnings.new result }
{
    let at = i as u32;
    let right = field_at(instructions, i, 1);
    let inserted = field_at(instructions, i, 3) % 256;
    let kind = right_warning(instructions, i);
    let n1 = push_if(f.redirect, warnings, n, 9, at, 0, 0);
    let n2 = push_if(f.right, warnings, n1, kind, at, right, replacement);
    let n3 = push_if(f.kern, warnings, n2, 7, at, 0, 0);
    let n4 = push_if(f.product, warnings, n3, 6, at, inserted, replacement);
    push_if(f.tag, warnings, n4, 8, at, 0, 0)
}

// The operand of step i repaired, as its 32 bits.
fn repaired_operand(instructions: &[i32], replacement: u32, f: Faults, i: usize) -> u32
    requires { replacement < 256 }
    ensures { (p : DamagedProgram) → FaultsAt p instructions.now replacement f i →
        number_of result ≡ repaired_operand p i }
{
    let operand = field_at(instructions, i, 3);
    if field_at(instructions, i, 2) != 2 {
        return pick(f.kern, 0, operand);
    }
    256 * pick(f.tag, 0, operand / 256) + pick(f.product, replacement, operand % 256)
}

// The four numbers of step i repaired, at its place.
fn write_step(instructions: &[i32], replacement: u32, f: Faults, i: usize, fixed: &mut [i32])
    requires { (replacement < 256) × (i < 32767) }
    ensures { (p : DamagedProgram) → FaultsAt p instructions.now replacement f i →
        fixed.new ≡ sets fixed.old (4 * i) (repaired_step p i) }
{
    let next = pick(f.skip, 4294967295, field_at(instructions, i, 0));
    let right = pick(f.right, replacement, field_at(instructions, i, 1));
    let kind = pick(f.kern, 0, field_at(instructions, i, 2));
    let operand = repaired_operand(instructions, replacement, f, i);
    words::i32s::put_word(fixed, 4 * i, next);
    words::i32s::put_word(fixed, 4 * i + 1, right);
    words::i32s::put_word(fixed, 4 * i + 2, kind);
    words::i32s::put_word(fixed, 4 * i + 3, operand);
}

// The warnings of skips, of all steps.
fn warn_skips(
    instructions: &[i32],
    kerns: &[i32],
    boundary: i32,
    existing: &[u64; 4],
    marks: &[u8],
    passthrough: &[u8],
    warnings: &mut [i32],
    n: usize,
) -> usize
    requires { (count instructions.now ≤ 32767) × (n < 524288) }
    ensures { (m : ℕ) →
        PushedUpTo (count instructions.now) warnings.old n
        (skip_warnings
        (program_by instructions.now kerns.now boundary m existing.now
        marks.now passthrough.now) (count instructions.now))
        warnings.new result }
{
    let mut at = n;
    for i in 0..instructions.len() / 4 {
        let f = faults(
            instructions,
            kerns,
            boundary,
            existing,
            marks,
            passthrough,
            i,
        );
        at = push_if(f.skip, warnings, at, 3, i as u32, 0, 0);
    }
    at
}

// The other warnings of all steps, and the steps repaired.
fn fix_steps(
    instructions: &[i32],
    kerns: &[i32],
    boundary: i32,
    replacement: u32,
    existing: &[u64; 4],
    marks: &[u8],
    passthrough: &[u8],
    fixed: &mut [i32],
    warnings: &mut [i32],
    n: usize,
) -> usize
    requires { (count instructions.now ≤ 32767) × (replacement < 256) × (n < 524288) }
    ensures { FixesUpto
        (program_by instructions.now kerns.now boundary replacement existing.now
        marks.now passthrough.now) (count instructions.now) n
        fixed.old warnings.old result fixed.new warnings.new }
{
    let mut at = n;
    for i in 0..instructions.len() / 4 {
        let f = faults(
            instructions,
            kerns,
            boundary,
            existing,
            marks,
            passthrough,
            i,
        );
        at = warn_step(instructions, replacement, f, i, warnings, at);
        write_step(instructions, replacement, f, i, fixed);
    }
    at
}

// At most 32,767 steps, a replacement that is a character, and at most 65,535 warnings.
fn is_fixable(steps: usize, replacement: u32, n: usize) -> bool
    ensures { result ≡ both (leb steps 32767) (both (leb replacement 255) (leb n 65535)) }
{
    if 32767 < steps {
        return false;
    }
    replacement <= 255 && n <= 65535
}

// The repaired steps, and after n warnings those of skips (3), then those of steps (4 to 9), in order. Answers how many
// warnings there are then. Nothing is done to a program of more than 32,767 steps, for a replacement that is no
// character, and after more than 65,535 warnings: then n is answered.
pub fn fix_program(
    instructions: &[i32],
    kerns: &[i32],
    boundary: i32,
    replacement: u32,
    existing: &[u64; 4],
    marks: &[u8],
    passthrough: &[u8],
    fixed: &mut [i32],
    warnings: &mut [i32],
    n: usize,
) -> usize
    ensures { Fixes
        (program_by instructions.now kerns.now boundary replacement
        existing.now marks.now passthrough.now) n fixed.old
        warnings.old result fixed.new warnings.new }
{
    if !is_fixable(instructions.len() / 4, replacement, n) {
        return n;
    }
    let skipped = warn_skips(
        instructions,
        kerns,
        boundary,
        existing,
        marks,
        passthrough,
        warnings,
        n,
    );
    fix_steps(
        instructions,
        kerns,
        boundary,
        replacement,
        existing,
        marks,
        passthrough,
        fixed,
        warnings,
        skipped,
    )
}
