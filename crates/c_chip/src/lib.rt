// One command of the caption chip for a host in C (R214): the block in bytes, and the chip in a list of 91 numbers.
#![tactic(auto)]

ghost use Rattle.c_chip.specs.Chip91.{TellsChip};

use c_chip_begin::begin_in;
use c_chip_turn::turn_in;
use words::slices::item_at;

// One command: 0, with the block and the chip after it; or the number of its refusal, with both as they were. Numbers
// that are no chip's are 7.
#[unsafe(no_mangle)]
pub extern "C" fn ligkern_chip(
    pairs: &[i32],
    ops: &[i32],
    boundary: i32,
    block: &mut [u8],
    chip: &mut [u64],
) -> u32
    ensures { TellsChip pairs.now ops.now boundary block.old
        chip.old result block.new chip.new }
{
    if item_at(block, 0) == 1 {
        return begin_in(pairs, ops, boundary, block, chip);
    }
    turn_in(pairs, ops, boundary, block, chip)
}
