// Add on the chip that stands in a list, for a host in C: the letter, the length of the word and the block are written.
#![tactic(auto)]

ghost use Rattle.std.specs.Prelude.{◌≡◌, true, ◌≤◌, length};
ghost use Rattle.chips.specs.Blocks.{block_letter};
ghost use Rattle.chips.specs.Commands.{chip_refusal, may_add, in_turn, chip_added};
ghost use Rattle.c_chips.specs.ChipLists.{is_chip, chip_at, chip_read, after_early, MovesChip};

use c_chip_read::list_refusal;
use c_chip_write::show_changes;
use c_states::states::{flag_of, state_in};
use captions::Answer;
use words::slices::item_at;

// A letter behind the others; 22 where no word is open, or it is full.
fn add_letter(block: &mut [u8], list: &mut [u64]) -> u32
    requires { (16 ≤ length block.old) × (is_chip list.old ≡ true) × (chip_refusal (chip_at list.old) ≡ 0) }
    ensures { MovesChip (in_turn (may_add (chip_at list.old)) 0)
        (chip_added (block_letter block.old) (chip_at list.old)) block.old
        list.old result block.new list.new }
{
    let length = list[1] as usize;
    if !flag_of(list[0]) {
        return 22;
    }
    if 63 < length {
        return 22;
    }
    let state = state_in(&list[9..]);
    list[18 + length] = item_at(block, 1) as u64;
    list[1] = (length + 1) as u64;
    show_changes(block, list, true, Answer::End, state);
    0
}

// Add, whatever byte 0 says, after what is refused before a command is looked at.
pub fn add_in(boundary: i32, block: &mut [u8], list: &mut [u64]) -> u32
    ensures { MovesChip
        (after_early boundary (chip_read list.old) (length block.old)
        (in_turn (may_add (chip_read list.old)) 0))
        (chip_added (block_letter block.old) (chip_read list.old)) block.old
        list.old result block.new list.new }
{
    let refusal = list_refusal(boundary, list, block.len());
    if refusal != 0 {
        return refusal;
    }
    add_letter(block, list)
}
