ghost use Rattle.tfm.specs.Scaled.{asked_refusal, design_at};
ghost use Rattle.fonts.specs.Fonts.{font_of};
ghost use Rattle.c_compile.specs.Counts.{CompilesCounts};

// The counts: pairs, ops, loops. Compile's numbers; 15 where the counts have no room comes before 19.
#[unsafe(no_mangle)]
pub extern "C" fn ligkern_compile(
    instructions: &[i32],
    kerns: &[i32],
    entries: &[i32],
    boundary: i32,
    left_entry: i32,
    design_size: i32,
    size: i32,
    magnification: i32,
    pairs: &mut [i32],
    ops: &mut [i32],
    loops: &mut [i32],
    work: &mut [u32],
    counts: &mut [u64],
) -> u32
    ensures { CompilesCounts
        (font_of instructions.now kerns.now entries.now boundary left_entry
        (design_at design_size size magnification)) (asked_refusal design_size size magnification)
        pairs.old ops.old loops.old work.old counts.old result
        pairs.new ops.new loops.new work.new counts.new }
{
    c_compile::compiled::ligkern_compile(
        instructions,
        kerns,
        entries,
        boundary,
        left_entry,
        design_size,
        size,
        magnification,
        pairs,
        ops,
        loops,
        work,
        counts,
    )
}
