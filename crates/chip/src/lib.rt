// The caption chip: one command on a block of 16 bytes. What each does, and what it refuses, is said in
// chips/specs/Commands.antt.
#![tactic(auto)]

ghost use Rattle.std.specs.Prelude.{◌≡◌};
ghost use Rattle.chips.specs.Commands.{fresh_chip, Commands};

use captions::{Answer, Consumes, NextLeft, State};
use chip_block::{count_of, show};
use chip_turn::commanded;
use chips::{Chip, Commanded};
use words::slices::item_at;

// A chip before its first command.
pub fn fresh() -> Chip
    ensures { result ≡ fresh_chip }
{
    Chip {
        opened: false,
        length: 0,
        letters: [0u32; 64],
        counts: [0u32; 8],
        caller: 0,
        item: Answer::End,
        state: State {
            next_left: NextLeft::Boundary,
            op: 0,
            ops: 0,
            read: 0,
            given: 0,
            pending: 0,
            pending_boundary: false,
            consumes_left: Consumes::Nothing,
        },
    }
}

// One command: 0 and the chip after it, which the block shows; or the number of its refusal, with chip and block as
// they were.
pub fn command(pairs: &[i32], ops: &[i32], boundary: i32, block: &mut [u8], chip: Chip) -> Commanded
    ensures { Commands pairs.now ops.now boundary block.old chip result
        block.new }
{
    let letter = item_at(block, 1);
    let done = commanded(
        pairs,
        ops,
        boundary,
        block.len(),
        item_at(block, 0),
        letter,
        chip,
    );
    if done.number != 0 {
        return done;
    }
    let after = done.chip;
    let item = after.item;
    let caller = after.caller as usize;
    show(block, after.opened, count_of(after, caller), item);
    done
}
