ghost use Rattle.std.specs.Prelude.{length, pos};
ghost use Rattle.pack.specs.Packing.{packable, packed_instructions, packed_entries};
ghost use Rattle.c_values.specs.Telling.{GivesTwo, Gives};
ghost use Rattle.c_packing.specs.Changes.{pack_reply, pack_kerns_reply, unpack_kerns_reply};
ghost use Rattle.program_kerns.specs.Kerns.{packed, unpacked, kerns_of};

// The instructions with redirects in front and the left boundary's entry at the end; the entries, packed, in the lent
// order. Tells the count of instructions now, the offset of the old ones, and the number of redirects.
#[unsafe(no_mangle)]
pub extern "C" fn ligkern_pack_entrypoints(
    instructions: &[i32],
    entries: &[i32],
    boundary: i32,
    left_entry: i32,
    out: &mut [i32],
    entries_out: &mut [i32],
    values: &mut [u64],
) -> u32
    ensures { GivesTwo (pos 0)
        (pack_reply (packable instructions.now entries.now boundary left_entry)
        (length out.old) (length entries_out.old))
        (packed_instructions (packable instructions.now entries.now boundary left_entry))
        (packed_entries (packable instructions.now entries.now boundary left_entry))
        out.old entries_out.old values.old result out.new
        entries_out.new values.new }
{
    c_packing::entries::ligkern_pack_entrypoints(
        instructions,
        entries,
        boundary,
        left_entry,
        out,
        entries_out,
        values,
    )
}

// Each kern index becomes the kern there, or past the list a kern of zero. Tells the count of instructions.
#[unsafe(no_mangle)]
pub extern "C" fn ligkern_pack_kerns(
    instructions: &[i32],
    kerns: &[i32],
    out: &mut [i32],
    values: &mut [u64],
) -> u32
    ensures { Gives (pos 0)
        (pack_kerns_reply instructions.now kerns.now (length out.old))
        (packed instructions.now kerns.now) out.old values.old result
        out.new values.new }
{
    c_packing::packed_kerns::ligkern_pack_kerns(instructions, kerns, out, values)
}

// Each kern value becomes its index in the list of kerns, which holds each value once. Tells the count of kerns.
#[unsafe(no_mangle)]
pub extern "C" fn ligkern_unpack_kerns(
    instructions: &[i32],
    out: &mut [i32],
    kerns: &mut [i32],
    values: &mut [u64],
) -> u32
    ensures { GivesTwo (pos 0)
        (unpack_kerns_reply instructions.now (length out.old) (length kerns.old))
        (unpacked instructions.now) (kerns_of instructions.now) out.old
        kerns.old values.old result out.new kerns.new values.new }
{
    c_packing::unpacked_kerns::ligkern_unpack_kerns(instructions, out, kerns, values)
}
