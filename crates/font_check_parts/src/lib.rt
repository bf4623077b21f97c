// Two parts of checking a font file: the lists that compiling writes, zeroed, and the answer.
#![tactic(auto)]

ghost use Rattle.std.specs.Prelude.{◌≡◌};
ghost use Rattle.font_check_parts.specs.CheckParts.{TablesZero, checked_font};

use file_fonts::FileFont;
use font_checks::Checked;
use words::slices::zero_all;

// The lists that compiling writes, zeroed.
pub fn zero_tables(pairs: &mut [i32], ops: &mut [i32], loops: &mut [i32], work: &mut [u32])
    ensures { TablesZero pairs.old ops.old loops.old work.old
        pairs.new ops.new loops.new work.new }
{
    zero_all(pairs);
    zero_all(ops);
    zero_all(loops);
    zero_all(work);
}

// What reading answered, with the counts of what was compiled.
pub fn checked_font(font: FileFont, pairs: usize, ops: usize, loops: usize) -> Checked
    ensures { result ≡ checked_font font pairs ops loops }
{
    match font {
        FileFont::Font(n, k, e, m, boundary, left, design) => {
            Checked::Font(n, k, e, m, boundary, left, design, pairs, ops, loops)
        }
        FileFont::Refused(number) => Checked::Refused(number),
    }
}
