// G room FILE INSTRUCTIONS KERNS ENTRIES boundary left: a program is written into a file of at most so many bytes.
use lang::Written;
use test_file_runs::bytes::{unroll_bytes, widen};
use test_file_runs::rooms::{file_room, number_room, value_room, within};
use test_file_runs::runs::{left_over, put_runs, unroll};
use test_requests::answer::{put_count, put_one};
use test_requests::request::{after, from_end, front, items, number_at, part};
use words::i32s::word_at;

// The file, or the number of the refusal, and how many of the bytes behind it are not 0.
fn put_file(out: &mut [i32], answer: Written, new: &[i32]) -> usize {
    match answer {
        Written::Count(n) => {
            let zero = put_count(out, 0, 0);
            let a = put_count(out, zero, n);
            let b = put_runs(out, a, new, n);
            put_count(out, b, left_over(new, n))
        }
        Written::Refused(number) => {
            let at = put_one(out, 0, number);
            put_count(out, at, left_over(new, 0))
        }
    }
}

// What was written, from a file of so many bytes.
fn put_written(out: &mut [i32], answer: Written, new: &[u8]) -> usize {
    let mut list = number_room();
    widen(new, &mut list);
    put_file(out, answer, part(&list, 0, new.len()))
}

// Writes a font into a file.
fn write_into(
    numbers: &[i32],
    old: &[u8],
    instructions: &[i32],
    kerns: &[i32],
    entries: &[i32],
    new: &mut [u8],
) -> Written {
    file_writing::replace_lig_kern_program(
        old,
        instructions,
        kerns,
        entries,
        number_at(numbers, from_end(numbers, 2)),
        number_at(numbers, from_end(numbers, 1)),
        new,
    )
}

// Unrolls the font, whose lists begin at three places.
fn write_font(
    numbers: &[i32],
    first: usize,
    second: usize,
    third: usize,
    old: &[u8],
    new: &mut [u8],
) -> Written {
    let mut instructions = number_room();
    let mut kerns = value_room();
    let mut entries = value_room();
    let n = unroll(items(numbers, first, 2), &mut instructions);
    let m = unroll(items(numbers, second, 2), &mut kerns);
    let e = unroll(items(numbers, third, 2), &mut entries);
    let program = part(&instructions, 0, n);
    write_into(
        numbers,
        old,
        program,
        part(&kerns, 0, m),
        part(&entries, 0, e),
        new,
    )
}

// Finds the lists.
fn write_program(numbers: &[i32], old: &[u8], new: &mut [u8]) -> Written {
    let first = after(numbers, 1, 2);
    let second = after(numbers, first, 2);
    let third = after(numbers, second, 2);
    write_font(numbers, first, second, third, old, new)
}

// Lends as many bytes for the new file as are asked for.
fn write_within(numbers: &[i32], old: &[u8], new: &mut [u8], out: &mut [i32]) -> usize {
    let room = within(word_at(numbers, 0), new.len());
    let answer = write_program(numbers, old, &mut new[..room]);
    put_written(out, answer, front(new, room))
}

// The numbers of the answer.
pub(crate) fn written_file(numbers: &[i32], out: &mut [i32]) -> usize {
    let mut old = file_room();
    let mut new = file_room();
    let n = unroll_bytes(items(numbers, 1, 2), &mut old);
    write_within(numbers, front(&old, n), &mut new, out)
}
