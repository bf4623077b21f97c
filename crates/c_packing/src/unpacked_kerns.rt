// Kerns unpacked, for a host in C.
ghost use Rattle.std.specs.Prelude.{length, pos};
ghost use Rattle.program_kerns.specs.Kerns.{unpacked, kerns_of};
ghost use Rattle.c_values.specs.Telling.{GivesTwo};
ghost use Rattle.c_packing.specs.Changes.{unpack_kerns_reply};

use c_values::lists::keep_list;
use c_values::tell;

// Each kern value becomes its index in the list of kerns, which holds each value once. Tells the count of kerns.
#[unsafe(no_mangle)]
pub extern "C" fn ligkern_unpack_kerns(
    instructions: &[i32],
    out: &mut [i32],
    kerns: &mut [i32],
    values: &mut [u64],
) -> u32
    ensures { GivesTwo (pos 0)
        (unpack_kerns_reply instructions.now (length out.old) (length kerns.old))
        (unpacked instructions.now) (kerns_of instructions.now) out.old
        kerns.old values.old result out.new kerns.new values.new }
{
    let written = program_kerns::unpack_kerns(instructions, out, kerns);
    let number = tell(written, values);
    keep_list(number, out);
    keep_list(number, kerns);
    number
}
