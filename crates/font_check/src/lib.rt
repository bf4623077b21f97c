// A font file checked (font_checks/specs/Checked.antt): the font that its bytes mean, read and then compiled, with its
// loops. No size is asked for.
#![tactic(auto)]

ghost use Rattle.font_checks.specs.Checked.{ChecksFile};
ghost use Rattle.font_check.specs.Stages.{CountsFit, CompilesRead};

use compile::compile;
use file_font::read_font;
use file_fonts::FileFont;
use font_check_parts::{checked_font, zero_tables};
use font_checks::Checked;
use fonts::Compiled;
use words::slices::zero_all;

// What was read, compiled; what was refused stays refused.
fn compile_read(
    font: FileFont,
    instructions: &[i32],
    kerns: &[i32],
    entries: &[i32],
    pairs: &mut [i32],
    ops: &mut [i32],
    loops: &mut [i32],
    work: &mut [u32],
) -> Compiled
    requires { CountsFit font instructions.now kerns.now entries.now }
    ensures { CompilesRead font instructions.now kerns.now entries.now
        pairs.old ops.old loops.old work.old result
        pairs.new ops.new loops.new work.new }
{
    match font {
        FileFont::Refused(number) => {
            zero_tables(pairs, ops, loops, work);
            Compiled::Refused(number)
        }
        FileFont::Font(n, k, e, _, boundary, left, design) => compile(
            &instructions[..4 * n],
            &kerns[..k],
            &entries[..2 * e],
            boundary,
            left,
            design,
            0,
            0,
            pairs,
            ops,
            loops,
            work,
        ),
    }
}

// A font file checked: the font that it means in four lists, as `read_font` writes them, and its pairs, ops and loops,
// as `compile` writes them. Work is left zero, and so is every list on a refusal.
pub fn check_file(
    file: &[u8],
    instructions: &mut [i32],
    kerns: &mut [i32],
    entries: &mut [i32],
    lost: &mut [i32],
    pairs: &mut [i32],
    ops: &mut [i32],
    loops: &mut [i32],
    work: &mut [u32],
) -> Checked
    ensures { ChecksFile file.now instructions.old kerns.old
        entries.old lost.old pairs.old ops.old loops.old
        work.old result instructions.new kerns.new entries.new
        lost.new pairs.new ops.new loops.new work.new }
{
    let font = read_font(file, instructions, kerns, entries, lost);
    match compile_read(font, instructions, kerns, entries, pairs, ops, loops, work) {
        Compiled::Tables(p, o, l) => checked_font(font, p, o, l),
        Compiled::Refused(refusal) => {
            zero_all(instructions);
            zero_all(kerns);
            zero_all(entries);
            zero_all(lost);
            Checked::Refused(refusal)
        }
    }
}
