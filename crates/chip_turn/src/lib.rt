// A chip after a command, or the number of its refusal and the chip as it was. The block is not looked at here: of it
// come its length, the command and byte 1, the letter of add and the caller of begin.
#![tactic(auto)]

ghost use Rattle.std.specs.Prelude.{◌≡◌, true, [], ◌∷◌, ◌≤◌};
ghost use Rattle.lang.specs.Checks.{absent_refusal};
ghost use Rattle.chips.specs.Blocks.{item_ready};
ghost use Rattle.chips.specs.Commands.{answer_number, may_add, in_turn, chip_step, counted_word, chip_added};
ghost use Rattle.chips.specs.Commands.{chip_stepped, chip_refusal, commanded_by};
ghost use Rattle.chip_turn.specs.Turns.{turned_of, commanded_of};

use caption_run::steps::step;
use captions::{Answer, RunOptions, Step};
use chip_begin::begin_word;
use chip_block::is_ready;
use chip_check::early_refusal;
use chips::{Chip, Commanded};

// The number of a refusal, else 0.
pub fn answer_number(answer: Answer) -> u32
    ensures { result ≡ answer_number answer }
{
    match answer {
        Answer::Char(_, _) => 0,
        Answer::Ligature(_, _, _, _, _) => 0,
        Answer::Kern(_) => 0,
        Answer::End => 0,
        Answer::Refused(n) => n,
    }
}

// Add: a letter behind the others.
fn add_letter(letter: u8, chip: Chip) -> Commanded
    ensures { result ≡ commanded_by (in_turn (may_add chip) 0) (chip_added letter chip) chip }
{
    let length = chip.length;
    if chip.opened && length < 64 {
        let mut letters = chip.letters;
        letters[length] = letter as u32;
        let mut after = chip;
        after.length = length + 1;
        after.letters = letters;
        return Commanded {
            number: 0,
            chip: after,
        };
    }
    Commanded {
        number: 22,
        chip: chip,
    }
}

// One step of the run over the word.
fn chip_step(pairs: &[i32], ops: &[i32], boundary: i32, chip: Chip) -> Step
    requires { chip.length ≤ 64 }
    ensures { result ≡ chip_step pairs.now ops.now boundary chip }
{
    let letters = chip.letters;
    let length = chip.length;
    let state = chip.state;
    let options = RunOptions {
        disable_left_boundary: false,
        right_boundary_override: -1,
    };
    step(pairs, ops, boundary, &letters[..length], options, state)
}

// The answer of a step is shown, with these counts, and no word is open; or what the step refused.
fn show_step(counts: [u32; 8], given: Step, chip: Chip) -> Commanded
    ensures { result ≡ commanded_by (answer_number given.answer) (chip_stepped counts given chip) chip }
{
    let item = given.answer;
    let number = answer_number(item);
    if number != 0 {
        return Commanded {
            number: number,
            chip: chip,
        };
    }
    let letters = chip.letters;
    let state = given.state;
    let after = Chip {
        opened: false,
        length: chip.length,
        letters: letters,
        counts: counts,
        caller: chip.caller,
        item: item,
        state: state,
    };
    Commanded {
        number: 0,
        chip: after,
    }
}

// The counts with one word more of the chip's caller.
fn counted_word(chip: Chip) -> [u32; 8]
    requires { (chip_refusal chip ≡ 0) × (chip.opened ≡ true) }
    ensures { result ≡ counted_word chip }
{
    let mut counts = chip.counts;
    let caller = chip.caller as usize;
    counts[caller] = counts[caller] + 1;
    counts
}

// End: the word is counted for its caller, and its first item shown.
fn end_word(pairs: &[i32], ops: &[i32], boundary: i32, chip: Chip) -> Commanded
    requires { chip_refusal chip ≡ 0 }
    ensures { result ≡ commanded_by
        (in_turn chip.opened (answer_number (chip_step pairs.now ops.now boundary chip).answer))
        (chip_stepped (counted_word chip) (chip_step pairs.now ops.now boundary chip) chip)
        chip }
{
    if chip.opened {
        let given = chip_step(pairs, ops, boundary, chip);
        return show_step(counted_word(chip), given, chip);
    }
    Commanded {
        number: 22,
        chip: chip,
    }
}

// Take: the item that is shown is passed, and the next one shown.
fn take_item(pairs: &[i32], ops: &[i32], boundary: i32, chip: Chip) -> Commanded
    requires { chip_refusal chip ≡ 0 }
    ensures { result ≡ commanded_by
        (in_turn (item_ready chip)
        (answer_number (chip_step pairs.now ops.now boundary chip).answer))
        (chip_stepped chip.counts (chip_step pairs.now ops.now boundary chip) chip) chip }
{
    let item = chip.item;
    if is_ready(item) {
        let given = chip_step(pairs, ops, boundary, chip);
        let counts = chip.counts;
        return show_step(counts, given, chip);
    }
    Commanded {
        number: 22,
        chip: chip,
    }
}

// By the command: begin, add, end, take, or 21.
fn turned(
    pairs: &[i32],
    ops: &[i32],
    boundary: i32,
    command: u8,
    letter: u8,
    chip: Chip,
) -> Commanded
    requires { (absent_refusal 255 boundary ≡ 0) × (chip_refusal chip ≡ 0) }
    ensures { result ≡ turned_of pairs.now ops.now boundary (command ∷ letter ∷ [])
        chip }
{
    match command {
        1 => begin_word(pairs, ops, boundary, letter, chip),
        2 => add_letter(letter, chip),
        3 => end_word(pairs, ops, boundary, chip),
        4 => take_item(pairs, ops, boundary, chip),
        _ => Commanded {
            number: 21,
            chip: chip,
        },
    }
}

// A command on a block of so many bytes, of which these are the first two.
pub fn commanded(
    pairs: &[i32],
    ops: &[i32],
    boundary: i32,
    bytes: usize,
    command: u8,
    letter: u8,
    chip: Chip,
) -> Commanded
    ensures { result ≡ commanded_of pairs.now ops.now boundary bytes
        (command ∷ letter ∷ []) chip }
{
    let refusal = early_refusal(boundary, chip, bytes);
    if refusal != 0 {
        return Commanded {
            number: refusal,
            chip: chip,
        };
    }
    turned(pairs, ops, boundary, command, letter, chip)
}
