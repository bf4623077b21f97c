// The answers about a program: I, U, B and R.
use crate::room::{indices, places, values};
use entry_unpack::{SevenBit, Unpacked};
use lang::Written;
use test_requests::answer::{bit, put_count, put_list, put_one, put_words};
use test_requests::request::{
    after, entries_of, from_end, front, instructions_of, items, number_at, part, rest,
};
use test_requests::sets::{mark, put_set};

// I entry FONT
pub(crate) fn chain_from(numbers: &[i32], out: &mut [i32]) -> Written {
    let mut list = indices();
    let instructions = instructions_of(rest(numbers, 1));
    match program_chain::instructions_for_entrypoint(
        instructions,
        number_at(numbers, 0),
        &mut list,
    ) {
        Written::Count(n) => {
            let a = put_count(out, 0, n);
            Written::Count(put_words(out, a, &list, n))
        }
        Written::Refused(n) => Written::Refused(n),
    }
}

// An unpacked entry and the marks that are left.
fn put_entry(out: &mut [i32], entry: usize, marks: &[u8]) -> usize {
    let a = put_count(out, 0, 0);
    let b = put_count(out, a, entry);
    put_set(out, b, marks)
}

// What unpacking answered, and the marks that it left.
fn put_unpacked(out: &mut [i32], answer: Unpacked, marks: &[u8]) -> Written {
    match answer {
        Unpacked::Entry(e) => Written::Count(put_entry(out, e, marks)),
        Unpacked::Direct => Written::Count(put_one(out, 0, 8)),
        Unpacked::Indirect => Written::Count(put_one(out, 0, 9)),
        Unpacked::Refused(n) => Written::Refused(n),
    }
}

// U entry PASSTHROUGH FONT
pub(crate) fn unpacked(numbers: &[i32], out: &mut [i32]) -> Written {
    let instructions = instructions_of(rest(numbers, after(numbers, 1, 1)));
    let mut marks = places();
    mark(items(numbers, 1, 1), &mut marks);
    let through = front(&marks, instructions.len() / 4);
    let mut left = places();
    let answer = entry_unpack::unpack_entrypoint(
        instructions,
        number_at(numbers, 0),
        through,
        &mut left,
    );
    put_unpacked(out, answer, &left)
}

// B FONT
pub(crate) fn seven_bit_safe(font: &[i32], out: &mut [i32]) -> Written {
    match entry_unpack::is_seven_bit_safe(instructions_of(font), entries_of(font)) {
        SevenBit::Safe(safe) => Written::Count(put_one(out, 0, bit(safe))),
        SevenBit::Refused(n) => Written::Refused(n),
    }
}

// What reach answered, and the two numbers an instruction that it wrote.
fn put_reach(out: &mut [i32], answer: Written, reach: &[i32]) -> Written {
    match answer {
        Written::Count(n) => {
            let a = put_count(out, 0, n);
            Written::Count(put_list(out, a, part(reach, 0, n % 4294967296 * 2)))
        }
        Written::Refused(n) => Written::Refused(n),
    }
}

// Reach of a font, with a mark for each instruction that is passed through.
fn reach_of(font: &[i32], marks: &[u8], reach: &mut [i32]) -> Written {
    let instructions = instructions_of(font);
    let through = front(marks, instructions.len() / 4);
    let left = number_at(font, from_end(font, 1));
    reach::reachable_iter(instructions, entries_of(font), left, through, reach)
}

// R PASSTHROUGH FONT
pub(crate) fn reached(numbers: &[i32], out: &mut [i32]) -> Written {
    let mut marks = places();
    mark(items(numbers, 0, 1), &mut marks);
    let mut reach = values();
    let answer = reach_of(rest(numbers, after(numbers, 0, 1)), &marks, &mut reach);
    put_reach(out, answer, &reach)
}
