// End and take on the chip that stands in a list, for a host in C. Only what a command changes is written, and the
// letters of the word are read where the step is made.
#![tactic(auto)]

ghost use Rattle.std.specs.Prelude.{◌≡◌, true, cond, ◌++◌, suc, ◌+◌, ◌-◌, ◌≤◌, length, get_or, set, replicate};
ghost use Rattle.lang.specs.Every.{every};
ghost use Rattle.chips.specs.Blocks.{item_ready};
ghost use Rattle.chips.specs.Commands.{chip_refusal, chip_step};
ghost use Rattle.c_chips.specs.ChipLists.{is_word, is_chip, chip_at, chip_read, after_early, MovesChip};
ghost use Rattle.c_chip_step.specs.StepTurns.{step_turn_number, step_turn_chip};

use c_chip_read::list_refusal;
use c_chip_write::show_changes;
use c_states::states::{flag_of, state_in};
use caption_run::steps::step;
use captions::{RunOptions, Step};
use chip_turn::answer_number;

// Letters, and zeros.
fn letters_of(codes: &[u64]) -> [u32; 64]
    requires { (length codes.now ≤ 64)
        × (every (length codes.now) (λ i. is_word (get_or codes.now i 0)) ≡ true) }
    ensures { result ≡ codes.now ++ replicate (64 - length codes.now) 0 }
{
    let mut letters = [0u32; 64];
    for (i, code) in codes.iter().enumerate() {
        letters[i] = *code as u32;
    }
    letters
}

// One step of the run over the word.
fn step_in(pairs: &[i32], ops: &[i32], boundary: i32, list: &[u64]) -> Step
    requires { is_chip list.now ≡ true }
    ensures { result ≡ chip_step pairs.now ops.now boundary (chip_at list.now) }
{
    let length = list[1] as usize;
    let end = 18 + length;
    let letters = letters_of(&list[18..end]);
    let state = state_in(&list[9..]);
    let options = RunOptions {
        disable_left_boundary: false,
        right_boundary_override: -1,
    };
    step(pairs, ops, boundary, &letters[..length], options, state)
}

// Whether it is the turn of end, or else of take.
fn is_turn(list: &[u64], ends: bool) -> bool
    requires { 91 ≤ length list.now }
    ensures { result ≡ cond ends (chip_at list.now).opened (item_ready (chip_at list.now)) }
{
    if ends {
        return flag_of(list[0]);
    }
    flag_of(list[2])
}

// One word more of the caller, at its end.
fn count_word(list: &mut [u64], ends: bool)
    requires { (91 ≤ length list.old) × (get_or list.old 90 0 ≤ 7)
        × (get_or list.old (82 + get_or list.old 90 0) 0 ≤ 4294967295) }
    ensures { list.new ≡ cond ends
        (set list.old (82 + get_or list.old 90 0)
        (suc (get_or list.old (82 + get_or list.old 90 0) 0))) list.old }
{
    if !ends {
        return;
    }
    let place = 82 + (list[90] as usize);
    list[place] = list[place] + 1;
}

// End or take: a step is made, and its answer shown; at the end the word is counted for its caller.
fn make_step(
    pairs: &[i32],
    ops: &[i32],
    boundary: i32,
    ends: bool,
    block: &mut [u8],
    list: &mut [u64],
) -> u32
    requires { (16 ≤ length block.old) × (is_chip list.old ≡ true) × (chip_refusal (chip_at list.old) ≡ 0) }
    ensures { MovesChip
        (step_turn_number pairs.now ops.now boundary ends (chip_at list.old))
        (step_turn_chip pairs.now ops.now boundary ends (chip_at list.old))
        block.old list.old result block.new list.new }
{
    if !is_turn(list, ends) {
        return 22;
    }
    let given = step_in(pairs, ops, boundary, list);
    let item = given.answer;
    let number = answer_number(item);
    if number != 0 {
        return number;
    }
    count_word(list, ends);
    let state = given.state;
    show_changes(block, list, false, item, state);
    0
}

// End, or else take, whatever byte 0 says, after what is refused before a command is looked at.
pub fn step_turn(
    pairs: &[i32],
    ops: &[i32],
    boundary: i32,
    ends: bool,
    block: &mut [u8],
    list: &mut [u64],
) -> u32
    ensures { MovesChip
        (after_early boundary (chip_read list.old) (length block.old)
        (step_turn_number pairs.now ops.now boundary ends (chip_read list.old)))
        (step_turn_chip pairs.now ops.now boundary ends (chip_read list.old))
        block.old list.old result block.new list.new }
{
    let refusal = list_refusal(boundary, list, block.len());
    if refusal != 0 {
        return refusal;
    }
    make_step(pairs, ops, boundary, ends, block, list)
}
