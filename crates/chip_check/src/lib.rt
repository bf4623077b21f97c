// What is refused before a chip's command is looked at: 4 of the boundary character, 7 of a chip that no command
// leaves, 15 of a block.
#![tactic(auto)]

ghost use Rattle.std.specs.Prelude.{◌≡◌, leb, length, get_or};
ghost use Rattle.lang.specs.Every.{every};
ghost use Rattle.lang.specs.Checks.{or_else, absent_refusal};
ghost use Rattle.lang.specs.Answers.{room_refusal};
ghost use Rattle.chips.specs.Commands.{item_stands, open_stands, chip_refusal};

use captions::Answer;
use chip_block::{count_of, is_ready};
use chips::Chip;
use program_checks::absent_refusal;

// Every letter of a word is a byte. They are or-ed together, since 255 is all of the low eight bits.
fn letters_stand(word: &[u32]) -> bool
    ensures { result ≡ every (length word.now) (λ i. leb (get_or word.now i 0) 255) }
{
    let mut all: u32 = 0;
    for letter in word {
        all |= *letter;
    }
    all <= 255
}

// No refusal, and no original of more than 64 letters.
fn item_stands(item: Answer) -> bool
    ensures { result ≡ item_stands item }
{
    match item {
        Answer::Char(_, _) => true,
        Answer::Ligature(_, _, n, _, _) => n <= 64,
        Answer::Kern(_) => true,
        Answer::End => true,
        Answer::Refused(_) => false,
    }
}

// An open word has no item ready, and can be counted for its caller.
fn open_stands(chip: Chip) -> bool
    ensures { result ≡ open_stands chip }
{
    if chip.opened {
        let item = chip.item;
        if is_ready(item) {
            return false;
        }
        let caller = chip.caller as usize;
        return count_of(chip, caller) < 4294967295;
    }
    true
}

// 7: a chip that no command leaves.
fn chip_refusal(chip: Chip) -> u32
    ensures { result ≡ chip_refusal chip }
{
    let length = chip.length;
    if 64 < length {
        return 7;
    }
    let letters = chip.letters;
    if !letters_stand(&letters[..length]) {
        return 7;
    }
    let item = chip.item;
    if !item_stands(item) {
        return 7;
    }
    let caller = chip.caller;
    if 7 < caller {
        return 7;
    }
    if open_stands(chip) { 0 } else { 7 }
}

// 4, 7 of the chip or 15 of the block's length, the lowest that holds.
pub fn early_refusal(boundary: i32, chip: Chip, bytes: usize) -> u32
    ensures { result ≡ or_else (absent_refusal 255 boundary) (or_else (chip_refusal chip) (room_refusal 16 bytes)) }
{
    let edge = absent_refusal(255, boundary);
    if edge != 0 {
        return edge;
    }
    let stands = chip_refusal(chip);
    if stands != 0 {
        return stands;
    }
    if bytes < 16 { 15 } else { 0 }
}
