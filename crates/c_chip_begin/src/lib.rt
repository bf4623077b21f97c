// Begin of the chip that stands in a list, for a host in C. The table is looked at before the list, so that nothing of
// the list is kept while it is read.
#![tactic(auto)]

ghost use Rattle.std.specs.Prelude.{◌≡◌, true, [], ◌≤◌, length};
ghost use Rattle.lang.specs.Checks.{or_else};
ghost use Rattle.captions.specs.Form.{table_refusal};
ghost use Rattle.captions.specs.Begin.{fresh_state, plain_options};
ghost use Rattle.chips.specs.Blocks.{block_caller};
ghost use Rattle.chips.specs.Commands.{chip_refusal, may_begin, caller_refusal, in_turn, chip_begun};
ghost use Rattle.c_chips.specs.ChipLists.{is_chip, chip_at, chip_read, after_early, MovesChip};

use c_chip_read::list_refusal;
use c_chip_write::show_changes;
use c_states::states::flag_of;
use captions::{Answer, Begun, State};
use chip_begin::begin_run;
use words::slices::item_at;

// No word is open, every item was taken, and one more word of the caller can be counted.
fn may_begin(list: &[u64], caller: u8) -> bool
    requires { 91 ≤ length list.now }
    ensures { result ≡ may_begin caller (chip_at list.now) }
{
    if flag_of(list[0]) {
        return false;
    }
    if flag_of(list[2]) {
        return false;
    }
    if 7 < caller {
        return true;
    }
    list[82 + (caller as usize)] < 4294967295
}

// An empty word of the caller is open, with this run; 22 where begin is out of turn, and then 26 for a caller above 7.
fn open_word(block: &mut [u8], list: &mut [u64], state: State) -> u32
    requires { (16 ≤ length block.old) × (is_chip list.old ≡ true) × (chip_refusal (chip_at list.old) ≡ 0)
        × (state ≡ fresh_state [] plain_options) }
    ensures { MovesChip
        (in_turn (may_begin (block_caller block.old) (chip_at list.old))
        (caller_refusal (block_caller block.old)))
        (chip_begun (block_caller block.old) (chip_at list.old)) block.old
        list.old result block.new list.new }
{
    let caller = item_at(block, 1);
    if !may_begin(list, caller) {
        return 22;
    }
    if 7 < caller {
        return 26;
    }
    list[90] = caller as u64;
    show_changes(block, list, true, Answer::End, state);
    list[1] = 0;
    0
}

// The same, after what is refused before a command is looked at.
fn begin_with(boundary: i32, block: &mut [u8], list: &mut [u64], state: State) -> u32
    requires { state ≡ fresh_state [] plain_options }
    ensures { MovesChip
        (after_early boundary (chip_read list.old) (length block.old)
        (in_turn (may_begin (block_caller block.old) (chip_read list.old))
        (caller_refusal (block_caller block.old))))
        (chip_begun (block_caller block.old) (chip_read list.old)) block.old
        list.old result block.new list.new }
{
    let refusal = list_refusal(boundary, list, block.len());
    if refusal != 0 {
        return refusal;
    }
    open_word(block, list, state)
}

// Begin, whatever byte 0 says: the number, the block and the list after it.
pub fn begin_in(
    pairs: &[i32],
    ops: &[i32],
    boundary: i32,
    block: &mut [u8],
    list: &mut [u64],
) -> u32
    ensures { MovesChip
        (after_early boundary (chip_read list.old) (length block.old)
        (or_else (table_refusal pairs.now ops.now)
        (in_turn (may_begin (block_caller block.old) (chip_read list.old))
        (caller_refusal (block_caller block.old)))))
        (chip_begun (block_caller block.old) (chip_read list.old)) block.old
        list.old result block.new list.new }
{
    match begin_run(pairs, ops, boundary) {
        Begun::Refused(n) => {
            if block.len() < 16 {
                return list_refusal(boundary, list, block.len());
            }
            n
        }
        Begun::Run(state) => begin_with(boundary, block, list, state),
    }
}
