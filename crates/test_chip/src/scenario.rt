// Commands on one table, each handed the chip that the last one returned.
use chip::fresh;
use chips::Chip;
use test_chip_turns::turn;
use test_chip_words::{Counted, count_on};
use test_requests::request::{after, items, number_at, rest};
use words::i32s::word_at;

// A chip that has ended so many words of each caller.
fn chip_of(counts: [u32; 8]) -> Chip {
    let mut chip = fresh();
    chip.counts = counts;
    chip
}

// The commands one after the other; of callers, what the program counts is written too.
fn turns(
    rt: &impl Print,
    pairs: &[i32],
    ops: &[i32],
    boundary: i32,
    commands: &[i32],
    counts: [u32; 8],
    callers: bool,
    block: &mut [u8],
) {
    let mut chip = chip_of(counts);
    let mut counted = Counted {
        caller: 0,
        counts: counts,
    };
    for i in 0..commands.len() / 4 {
        let done = turn(rt, pairs, ops, boundary, rest(commands, 4 * i), block, chip);
        let next = done.chip;
        chip = next;
        let more = count_on(rt, callers, done.number, block, counted);
        counted = more;
    }
}

// The boundary character, the pairs, the ops, and the commands. A table without pairs has a block of 15 bytes.
fn answer_from(rt: &impl Print, numbers: &[i32], counts: [u32; 8], callers: bool) {
    let boundary = number_at(numbers, 0);
    let pairs = items(numbers, 1, 6);
    let ops = items(numbers, after(numbers, 1, 6), 2);
    let commands = rest(numbers, after(numbers, after(numbers, 1, 6), 2));
    if pairs.is_empty() {
        let mut short = [170u8; 15];
        turns(
            rt, pairs, ops, boundary, commands, counts, callers, &mut short,
        );
        return;
    }
    let mut block = [170u8; 18];
    turns(
        rt, pairs, ops, boundary, commands, counts, callers, &mut block,
    );
}

// From a fresh chip.
pub(crate) fn answer(rt: &impl Print, numbers: &[i32]) {
    answer_from(rt, numbers, [0u32; 8], false);
}

// From a chip with the counts that stand first.
pub(crate) fn answer_callers(rt: &impl Print, numbers: &[i32]) {
    let counts: [u32; 8] = std::array::from_fn(|i| word_at(numbers, i));
    answer_from(rt, rest(numbers, 8), counts, true);
}
