// Packing of entries, for a host in C.
ghost use Rattle.std.specs.Prelude.{length, pos};
ghost use Rattle.pack.specs.Packing.{packable, packed_reply, packed_instructions, packed_entries};
ghost use Rattle.c_values.specs.Telling.{TellsHost, GivesTwo};
ghost use Rattle.c_packing.specs.Changes.{pack_reply};

use c_values::lists::keep_list;
use pack::Packed;
use words::slices::zero_all;

// The three sizes of a packed font, or the number of a refusal.
fn tell_sizes(packed: Packed, values: &mut [u64]) -> u32
    ensures { TellsHost (packed_reply packed) values.old result values.new }
{
    zero_all(values);
    match packed {
        Packed::Refused(n) => n,
        Packed::Sizes(n, offset, redirects) => {
            if values.len() < 3 {
                return 15;
            }
            values[0] = n as u64;
            values[1] = offset as u64;
            values[2] = redirects as u64;
            0
        }
    }
}

// The instructions with redirects in front and the left boundary's entry at the end; the entries, packed, in the lent
// order. Tells the count of instructions now, the offset of the old ones, and the number of redirects.
#[unsafe(no_mangle)]
pub extern "C" fn ligkern_pack_entrypoints(
    instructions: &[i32],
    entries: &[i32],
    boundary: i32,
    left_entry: i32,
    out: &mut [i32],
    entries_out: &mut [i32],
    values: &mut [u64],
) -> u32
    ensures { GivesTwo (pos 0)
        (pack_reply (packable instructions.now entries.now boundary left_entry)
        (length out.old) (length entries_out.old))
        (packed_instructions (packable instructions.now entries.now boundary left_entry))
        (packed_entries (packable instructions.now entries.now boundary left_entry))
        out.old entries_out.old values.old result out.new
        entries_out.new values.new }
{
    let packed = pack::pack_entrypoints(
        instructions,
        entries,
        boundary,
        left_entry,
        out,
        entries_out,
    );
    let number = tell_sizes(packed, values);
    keep_list(number, out);
    keep_list(number, entries_out);
    number
}
