// Another program in the middle of a font file, for a host in C.
ghost use Rattle.files.specs.Writing.{writable};
ghost use Rattle.c_files.specs.Files.{HostReplaces};

use c_values::lists::keep_list;
use c_values::tell;
use file_writing::replace_lig_kern_program;
use program_checks::lower_of;
use program_limits::room_refusal;

// The old file with another lig/kern program, packed entries and shared kerns. Tells how many bytes it has.
#[unsafe(no_mangle)]
pub extern "C" fn ligkern_replace_lig_kern_program(
    old: &[u8],
    instructions: &[i32],
    kerns: &[i32],
    entries: &[i32],
    boundary: i32,
    left_entry: i32,
    out: &mut [u8],
    values: &mut [u64],
) -> u32
    ensures { HostReplaces old.now
        (writable instructions.now kerns.now entries.now boundary left_entry)
        out.old values.old result out.new values.new }
{
    let written = replace_lig_kern_program(
        old,
        instructions,
        kerns,
        entries,
        boundary,
        left_entry,
        out,
    );
    let told = tell(written, values);
    let number = lower_of(room_refusal(1, values.len()), told);
    keep_list(number, out);
    number
}
