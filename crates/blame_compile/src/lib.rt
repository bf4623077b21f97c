// A font compiled with no room for a loop (R484), so that compile answers 15 exactly where there is one.
#![tactic(auto)]

ghost use Rattle.std.specs.Prelude.{[]};
ghost use Rattle.fonts.specs.Compiled.{Compiles};
ghost use Rattle.removals.specs.Removed.{font_at, size_number};

use compile::compile;
use fonts::Compiled;
use removals::FontNumbers;

// Compile, by a font's lists and its numbers, lent an empty loop list.
pub fn compile_loopless(
    instructions: &[i32],
    kerns: &[i32],
    entries: &[i32],
    numbers: FontNumbers,
    pairs: &mut [i32],
    ops: &mut [i32],
    work: &mut [u32],
) -> Compiled
    ensures { Compiles
        (font_at instructions.now kerns.now entries.now numbers) (size_number numbers)
        pairs.old ops.old [] work.old result pairs.new ops.new []
        work.new }
{
    let mut none = [0i32; 1];
    compile(
        instructions,
        kerns,
        entries,
        numbers.boundary,
        numbers.left_entry,
        numbers.design_size,
        numbers.size,
        numbers.magnification,
        pairs,
        ops,
        &mut none[..0],
        work,
    )
}
