ghost use Rattle.c_chip.specs.Chip91.{TellsChip};

// One command: 0, with the block and the chip after it; or the number of its refusal, with both as they were. Numbers
// that are no chip's are 7.
#[unsafe(no_mangle)]
pub extern "C" fn ligkern_chip(
    pairs: &[i32],
    ops: &[i32],
    boundary: i32,
    block: &mut [u8],
    chip: &mut [u64],
) -> u32
    ensures { TellsChip pairs.now ops.now boundary block.old
        chip.old result block.new chip.new }
{
    c_chip::ligkern_chip(pairs, ops, boundary, block, chip)
}
