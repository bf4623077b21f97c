// A font as a property list, for a host in C, which can lend slices of numbers and pass integers and nothing else. The
// call answers a number, 0 or that of a refusal (R214). A refusal leaves zeros in every list that is written (R252); 15
// for too short a list of values comes before 24.
#![tactic(auto)]

ghost use Rattle.c_display.specs.Display.{HostDisplays};

use c_values::lists::keep_list;
use c_values::tell;
use pl_write::display;
use program_checks::lower_of;
use program_limits::room_refusal;

// The BOUNDARYCHAR and LIGTABLE lists of a font. Tells how many bytes they have.
#[unsafe(no_mangle)]
pub extern "C" fn ligkern_display(
    instructions: &[i32],
    kerns: &[i32],
    entries: &[i32],
    boundary: i32,
    left_entry: i32,
    text: &mut [u8],
    values: &mut [u64],
) -> u32
    ensures { HostDisplays instructions.now kerns.now entries.now boundary
        left_entry text.old values.old result text.new values.new }
{
    let written = display(instructions, kerns, entries, boundary, left_entry, text);
    let told = tell(written, values);
    let number = lower_of(room_refusal(1, values.len()), told);
    keep_list(number, text);
    number
}
