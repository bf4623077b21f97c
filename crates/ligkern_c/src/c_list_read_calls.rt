ghost use Rattle.c_list_read.specs.Source.{HostReadsList};

// The instructions, the kerns, each value once, and the entries (by ascending character) of a property list. Tells the
// boundary character and the left entry, and how many instructions, kerns and entries there are.
#[unsafe(no_mangle)]
pub extern "C" fn ligkern_from_pl_source_code(
    text: &[u8],
    instructions: &mut [i32],
    kerns: &mut [i32],
    entries: &mut [i32],
    edges: &mut [i32],
    counts: &mut [u64],
) -> u32
    ensures { HostReadsList text.now instructions.old kerns.old
        entries.old edges.old counts.old result instructions.new
        kerns.new entries.new edges.new counts.new }
{
    c_list_read::ligkern_from_pl_source_code(text, instructions, kerns, entries, edges, counts)
}
