// The commands but begin on the chip that stands in a list, for a host in C, by byte 0.
#![tactic(auto)]

ghost use Rattle.std.specs.Prelude.{length};
ghost use Rattle.chips.specs.Commands.{chip_after};
ghost use Rattle.c_chips.specs.ChipLists.{chip_read, after_early, MovesChip};
ghost use Rattle.c_chip_turn.specs.ListTurns.{other_refusal};

use c_chip_add::add_in;
use c_chip_read::list_refusal;
use c_chip_step::step_turn;
use words::slices::item_at;

// Add, end, take, or 21; and before it what is refused before a command is looked at.
pub fn turn_in(pairs: &[i32], ops: &[i32], boundary: i32, block: &mut [u8], list: &mut [u64]) -> u32
    ensures { MovesChip
        (after_early boundary (chip_read list.old) (length block.old)
        (other_refusal pairs.now ops.now boundary block.old
        (chip_read list.old)))
        (chip_after pairs.now ops.now boundary block.old
        (chip_read list.old)) block.old list.old result block.new
        list.new }
{
    match item_at(block, 0) {
        2 => add_in(boundary, block, list),
        3 => step_turn(pairs, ops, boundary, true, block, list),
        4 => step_turn(pairs, ops, boundary, false, block, list),
        _ => {
            let refusal = list_refusal(boundary, list, block.len());
            if refusal != 0 {
                return refusal;
            }
            21
        }
    }
}
