// Kerns packed, for a host in C.
ghost use Rattle.std.specs.Prelude.{length, pos};
ghost use Rattle.program_kerns.specs.Kerns.{packed};
ghost use Rattle.c_values.specs.Telling.{Gives};
ghost use Rattle.c_packing.specs.Changes.{pack_kerns_reply};

use c_values::lists::keep_list;
use c_values::tell;

// Each kern index becomes the kern there, or past the list a kern of zero. Tells the count of instructions.
#[unsafe(no_mangle)]
pub extern "C" fn ligkern_pack_kerns(
    instructions: &[i32],
    kerns: &[i32],
    out: &mut [i32],
    values: &mut [u64],
) -> u32
    ensures { Gives (pos 0)
        (pack_kerns_reply instructions.now kerns.now (length out.old))
        (packed instructions.now kerns.now) out.old values.old result
        out.new values.new }
{
    let written = program_kerns::pack_kerns(instructions, kerns, out);
    let number = tell(written, values);
    keep_list(number, out);
    number
}
