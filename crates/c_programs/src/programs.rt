// The calls about programs.
ghost use Rattle.std.specs.Prelude.{length, pos};
ghost use Rattle.words.specs.Words.{word_of};
ghost use Rattle.program_chain.specs.Chains.{chain_of};
ghost use Rattle.entry_unpack.specs.Unpacking.{unpack_entry, passthrough_after, seven_bit};
ghost use Rattle.reach.specs.Reach.{reach_list};
ghost use Rattle.c_values.specs.Telling.{TellsHost, Gives};
ghost use Rattle.c_programs.specs.Programs.{walk_reply, reach_reply};

use crate::answers::{entry_of, safety_of};
use c_values::lists::keep_list;
use c_values::tell;

// The indices of the whole chain from an entry, then zeros. Tells how many.
#[unsafe(no_mangle)]
pub extern "C" fn ligkern_instructions_for_entrypoint(
    instructions: &[i32],
    entry: i32,
    out: &mut [u32],
    values: &mut [u64],
) -> u32
    ensures { Gives 0 (walk_reply instructions.now entry (length out.old))
        (chain_of instructions.now (word_of entry)) out.old values.old result
        out.new values.new }
{
    let written = program_chain::instructions_for_entrypoint(instructions, entry, out);
    let number = tell(written, values);
    keep_list::<u32>(number, out);
    number
}

// The passthrough after an entry is unpacked, as 0 and 1, then zeros. Tells the entry that the packed one stands for.
#[unsafe(no_mangle)]
pub extern "C" fn ligkern_unpack_entrypoint(
    instructions: &[i32],
    entry: i32,
    passthrough: &[u8],
    out: &mut [u8],
    values: &mut [u64],
) -> u32
    ensures { Gives 0
        (unpack_entry instructions.now entry passthrough.now (length out.old))
        (passthrough_after instructions.now (word_of entry) passthrough.now)
        out.old values.old result out.new values.new }
{
    let unpacked = entry_unpack::unpack_entrypoint(instructions, entry, passthrough, out);
    let number = tell(entry_of(unpacked), values);
    keep_list::<u8>(number, out);
    number
}

// The program's seven-bit test. Tells 1 where no instruction for two characters below 128 inserts one above 127.
#[unsafe(no_mangle)]
pub extern "C" fn ligkern_program_is_seven_bit_safe(
    instructions: &[i32],
    entries: &[i32],
    values: &mut [u64],
) -> u32
    ensures { TellsHost (seven_bit instructions.now entries.now)
        values.old result values.new }
{
    let tested = entry_unpack::is_seven_bit_safe(instructions, entries);
    tell(safety_of(tested), values)
}

// Two numbers an instruction: its state (0 unreachable, 1 reachable, 2 passthrough) and its adjusted skip or -1. Tells
// the count of instructions.
#[unsafe(no_mangle)]
pub extern "C" fn ligkern_reachable_iter(
    instructions: &[i32],
    entries: &[i32],
    left_entry: i32,
    passthrough: &[u8],
    out: &mut [i32],
    values: &mut [u64],
) -> u32
    ensures { Gives (pos 0)
        (reach_reply instructions.now entries.now left_entry passthrough.now
        (length out.old))
        (reach_list instructions.now entries.now left_entry passthrough.now)
        out.old values.old result out.new values.new }
{
    let written = reach::reachable_iter(instructions, entries, left_entry, passthrough, out);
    let number = tell(written, values);
    keep_list::<i32>(number, out);
    number
}
