// One command of the caption chip for test_chip: what it answers and leaves in the block is written, and before it what
// `step` gives from the chip's state.
#![tactic(auto)]

ghost use Rattle.std.specs.Prelude.{◌≡◌};
ghost use Rattle.chips.specs.Commands.{commanded_by};

use caption_run::steps::step;
use captions::{Answer, RunOptions};
use chip::command;
use chip_block::show;
use chips::{Chip, Commanded};
use lang::Written;
use test_requests::answer::put_one;
use test_requests::request::front;
use test_requests::write::put_line;
use words::i32s::word_at;
use words::slices::{item_at, put_item};

// A number, and the bytes of a block.
fn put_block(out: &mut [i32], number: u32, block: &[u8]) -> usize {
    let mut at = put_one(out, 0, number);
    for b in block {
        at = put_one(out, at, *b as u32);
    }
    at
}

fn print(rt: &impl Print, letter: u8, number: u32, block: &[u8]) {
    let mut out = [0i32; 32];
    let mut line = [0u8; 256];
    let n = put_block(&mut out, number, block);
    let k = put_line(&mut line, letter, Written::Count(n), &out);
    let _ = rt.write_all(front(&line, k));
}

// What the host writes into byte i before a command, of which `four` has the command, its letter, the mask, and what
// takes the place of every other byte below 16, if it is below 256.
fn host_byte(four: &[i32], i: usize, old: u8) -> u8 {
    let place = match i {
        0 => 0,
        1 => 1,
        3 => 2,
        _ => 3,
    };
    let w = word_at(four, place);
    if w < 256 { w as u8 } else { old }
}

fn put_command(block: &mut [u8], four: &[i32]) {
    for i in 0..16 {
        put_item(block, i, host_byte(four, i, item_at(block, i)));
    }
}

// The letters of a word, of which there are no more than are lent.
fn letters(word: &[u32], n: usize) -> &[u32] {
    &word[..n.min(word.len())]
}

// What `step` gives from a chip's state.
fn given(pairs: &[i32], ops: &[i32], boundary: i32, chip: Chip) -> Answer {
    let all = chip.letters;
    let n = chip.length;
    let state = chip.state;
    let options = RunOptions {
        disable_left_boundary: false,
        right_boundary_override: -1,
    };
    let one = step(pairs, ops, boundary, letters(&all, n), options, state);
    one.answer
}

// An item shown in a block of its own.
fn show_beside(rt: &impl Print, answer: Answer) {
    let mut block = [0u8; 16];
    show(&mut block, false, 0, answer);
    print(rt, b'S', 0, &block);
}

// One command, after what a step would give: its number, and the chip after it, which is as it was where the command is
// refused.
pub fn turn(
    rt: &impl Print,
    pairs: &[i32],
    ops: &[i32],
    boundary: i32,
    four: &[i32],
    block: &mut [u8],
    chip: Chip,
) -> Commanded
    ensures { result ≡ commanded_by result.number result.chip chip }
{
    show_beside(rt, given(pairs, ops, boundary, chip));
    put_command(block, four);
    let done = command(pairs, ops, boundary, block, chip);
    print(rt, b'B', done.number, block);
    done
}
