ghost use Rattle.c_files.specs.Files.{HostDeserializes, HostReplaces};
ghost use Rattle.files.specs.Writing.{writable};

// The instructions (redirect flags unset), kerns and entries (still packed, by ascending character) of a font file.
// Tells the boundary character and the left entry, and how many instructions, kerns and entries there are.
#[unsafe(no_mangle)]
pub extern "C" fn ligkern_deserialize(
    file: &[u8],
    instructions: &mut [i32],
    kerns: &mut [i32],
    entries: &mut [i32],
    edges: &mut [i32],
    counts: &mut [u64],
) -> u32
    ensures { HostDeserializes file.now instructions.old kerns.old
        entries.old edges.old counts.old result instructions.new
        kerns.new entries.new edges.new counts.new }
{
    c_files::reading::ligkern_deserialize(file, instructions, kerns, entries, edges, counts)
}

// The old file with another lig/kern program, packed entries and shared kerns. Tells how many bytes it has.
#[unsafe(no_mangle)]
pub extern "C" fn ligkern_replace_lig_kern_program(
    old: &[u8],
    instructions: &[i32],
    kerns: &[i32],
    entries: &[i32],
    boundary: i32,
    left_entry: i32,
    out: &mut [u8],
    values: &mut [u64],
) -> u32
    ensures { HostReplaces old.now
        (writable instructions.now kerns.now entries.now boundary left_entry)
        out.old values.old result out.new values.new }
{
    c_files::writing::ligkern_replace_lig_kern_program(
        old,
        instructions,
        kerns,
        entries,
        boundary,
        left_entry,
        out,
        values,
    )
}
