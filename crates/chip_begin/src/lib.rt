// Begin of the caption chip: an empty word of a caller, or the number of its refusal and the chip as it was.
#![tactic(auto)]

ghost use Rattle.std.specs.Prelude.{◌≡◌, []};
ghost use Rattle.lang.specs.Checks.{or_else};
ghost use Rattle.captions.specs.Begin.{fresh_state, begin_refusal, begin_of, plain_options};
ghost use Rattle.chips.specs.Commands.{may_begin, caller_refusal, in_turn, chip_begun, commanded_by};

use caption_run::begin::begin;
use captions::{Begun, RunOptions, State};
use chip_block::{count_of, is_ready};
use chips::{Chip, Commanded};

// No word is open, every item was taken, and one more word of the caller can be counted.
fn may_begin(caller: u8, chip: Chip) -> bool
    ensures { result ≡ may_begin caller chip }
{
    if chip.opened {
        return false;
    }
    let shown = chip.item;
    if is_ready(shown) {
        return false;
    }
    count_of(chip, caller as usize) < 4294967295
}

// A fresh run over no letters, or 4 of the boundary character, or 7 of the table.
pub fn begin_run(pairs: &[i32], ops: &[i32], boundary: i32) -> Begun
    ensures { result ≡ begin_of pairs.now ops.now boundary [] plain_options }
{
    let options = RunOptions {
        disable_left_boundary: false,
        right_boundary_override: -1,
    };
    let letters = [0u32; 1];
    begin(pairs, ops, boundary, &letters[..0], options)
}

// An empty word of the caller is open, with this run; 22 where begin is out of turn, and then 26 for a caller above 7.
fn open_word(caller: u8, chip: Chip, state: State) -> Commanded
    requires { state ≡ fresh_state [] plain_options }
    ensures { result ≡ commanded_by (in_turn (may_begin caller chip) (caller_refusal caller)) (chip_begun caller chip)
        chip }
{
    if !may_begin(caller, chip) {
        return Commanded {
            number: 22,
            chip: chip,
        };
    }
    if 7 < caller {
        return Commanded {
            number: 26,
            chip: chip,
        };
    }
    let mut after = chip;
    after.opened = true;
    after.length = 0;
    after.caller = caller as u32;
    after.state = state;
    Commanded {
        number: 0,
        chip: after,
    }
}

// Begin: the table is looked at first, then whether it is begin's turn, and then the caller.
pub fn begin_word(pairs: &[i32], ops: &[i32], boundary: i32, caller: u8, chip: Chip) -> Commanded
    ensures { result ≡ commanded_by
        (or_else (begin_refusal pairs.now ops.now boundary [] plain_options)
        (in_turn (may_begin caller chip) (caller_refusal caller))) (chip_begun caller chip) chip }
{
    match begin_run(pairs, ops, boundary) {
        Begun::Refused(n) => Commanded {
            number: n,
            chip: chip,
        },
        Begun::Run(state) => open_word(caller, chip, state),
    }
}
