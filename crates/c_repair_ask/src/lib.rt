// Asking before a repair, for a host in C, which can lend slices of numbers and pass integers and nothing else: it
// answers a number, 0 or that of a refusal (R214). A refusal, 15 for a list that is too short among them (R216), leaves
// zeros in every list that is written (R252).
#![tactic(auto)]

ghost use Rattle.std.specs.Prelude.{[], ◌∷◌};
ghost use Rattle.repairs.specs.Repairs.{damaged_of};
ghost use Rattle.c_repair_ask.specs.Asking.{HostAsks};

use c_values::lists::keep_list;
use c_values::tell;
use repair_ask::ask_repair;

// The warnings that repairing a font would give, four numbers each. The existing characters are 256 bits: those from 0,
// 64, 128 and 192 on. Tells in `values` how many warnings there are. Work is left zero.
#[unsafe(no_mangle)]
pub extern "C" fn ligkern_ask_repair(
    instructions: &[i32],
    kerns: &[i32],
    entries: &[i32],
    boundary: i32,
    left_entry: i32,
    replacement: i32,
    from_0: u64,
    from_64: u64,
    from_128: u64,
    from_192: u64,
    passthrough: &[u8],
    warnings: &mut [i32],
    work: &mut [u32],
    values: &mut [u64],
) -> u32
    ensures { HostAsks
        (damaged_of instructions.now kerns.now entries.now boundary
        left_entry replacement (from_0 ∷ from_64 ∷ from_128 ∷ from_192 ∷ [])
        passthrough.now) warnings.old work.old values.old result
        warnings.new work.new values.new }
{
    let existing = [from_0, from_64, from_128, from_192];
    let written = ask_repair(
        instructions,
        kerns,
        entries,
        boundary,
        left_entry,
        replacement,
        &existing,
        passthrough,
        warnings,
        work,
    );
    let number = tell(written, values);
    keep_list(number, warnings);
    number
}
