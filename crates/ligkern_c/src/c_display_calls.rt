ghost use Rattle.c_display.specs.Display.{HostDisplays};

// The BOUNDARYCHAR and LIGTABLE lists of a font. Tells how many bytes they have.
#[unsafe(no_mangle)]
pub extern "C" fn ligkern_display(
    instructions: &[i32],
    kerns: &[i32],
    entries: &[i32],
    boundary: i32,
    left_entry: i32,
    text: &mut [u8],
    values: &mut [u64],
) -> u32
    ensures { HostDisplays instructions.now kerns.now entries.now boundary
        left_entry text.old values.old result text.new values.new }
{
    c_display::ligkern_display(
        instructions,
        kerns,
        entries,
        boundary,
        left_entry,
        text,
        values,
    )
}
