// A font compiled: its tables and its loops in their lists, and how many of each there are in a list of counts.
ghost use Rattle.tfm.specs.Scaled.{asked_refusal, design_at};
ghost use Rattle.fonts.specs.Fonts.{font_of};
ghost use Rattle.c_compile.specs.Counts.{CompilesCounts};

use crate::numbers::put_three;
use compile::compile;
use fonts::Compiled;
use program_checks::lower_of;
use program_limits::room_refusal;
use words::slices::zero_all;

// The counts: pairs, ops, loops. Compile's numbers; 15 where the counts have no room comes before 19.
#[unsafe(no_mangle)]
pub extern "C" fn ligkern_compile(
    instructions: &[i32],
    kerns: &[i32],
    entries: &[i32],
    boundary: i32,
    left_entry: i32,
    design_size: i32,
    size: i32,
    magnification: i32,
    pairs: &mut [i32],
    ops: &mut [i32],
    loops: &mut [i32],
    work: &mut [u32],
    counts: &mut [u64],
) -> u32
    ensures { CompilesCounts
        (font_of instructions.now kerns.now entries.now boundary left_entry
        (design_at design_size size magnification)) (asked_refusal design_size size magnification)
        pairs.old ops.old loops.old work.old counts.old result
        pairs.new ops.new loops.new work.new counts.new }
{
    zero_all(counts);
    match compile(
        instructions,
        kerns,
        entries,
        boundary,
        left_entry,
        design_size,
        size,
        magnification,
        pairs,
        ops,
        loops,
        work,
    ) {
        Compiled::Refused(n) => lower_of(n, room_refusal(3, counts.len())),
        Compiled::Tables(p, o, l) => {
            if counts.len() < 3 {
                zero_all(pairs);
                zero_all(ops);
                zero_all(loops);
                return 15;
            }
            put_three(counts, p, o, l);
            0
        }
    }
}
