// F roomInstructions roomKerns roomEntries FILE: a file is read into three lists of so many places.
#![tactic(auto)]

ghost use Rattle.std.specs.Prelude.{◌≤◌, length};

use files::Deserialized;
use test_file_runs::bytes::unroll_bytes;
use test_file_runs::rooms::{file_room, number_room, value_room, within};
use test_file_runs::runs::{left_over, put_runs};
use test_requests::answer::{put_count, put_one, put_words};
use test_requests::request::{front, items};
use words::i32s::word_at;
use words::word_of;

// How many numbers of the three lists, behind their first ones, are not 0.
fn left_over_of(
    instructions: &[i32],
    n: usize,
    kerns: &[i32],
    m: usize,
    entries: &[i32],
    e: usize,
) -> usize {
    left_over(instructions, n) + left_over(kerns, m) + left_over(entries, e)
}

// The first numbers of three lists as runs, and how many of the others are not 0.
fn put_lists(
    out: &mut [i32],
    instructions: &[i32],
    n: usize,
    kerns: &[i32],
    m: usize,
    entries: &[i32],
    e: usize,
) -> usize
    ensures { 6 ≤ length out.old → (6 ≤ result) × (result ≤ length out.new) }
{
    let a = put_runs(out, 6, instructions, n);
    let b = put_runs(out, a, kerns, m);
    let c = put_runs(out, b, entries, e);
    put_count(out, c, left_over_of(instructions, n, kerns, m, entries, e))
}

// The font, or the number of the refusal, and what stands in the rest of the lists.
fn put_font(
    out: &mut [i32],
    answer: Deserialized,
    instructions: &[i32],
    kerns: &[i32],
    entries: &[i32],
) -> usize
    ensures { 6 ≤ length out.old → (2 ≤ result) × (result ≤ length out.new) }
{
    match answer {
        Deserialized::Font(n, m, e, boundary, left) => {
            let a = n % 4294967296;
            let b = m % 4294967296;
            let c = e % 4294967296;
            let sizes = [
                0,
                a as u32,
                b as u32,
                c as u32,
                word_of(boundary),
                word_of(left),
            ];
            put_words(out, 0, &sizes, 6);
            put_lists(out, instructions, a * 4, kerns, b, entries, c * 2)
        }
        Deserialized::Refused(number) => {
            let at = put_one(out, 0, number);
            put_count(out, at, left_over_of(instructions, 0, kerns, 0, entries, 0))
        }
    }
}

// Reads a file into these lists.
fn read_into(
    file: &[u8],
    instructions: &mut [i32],
    kerns: &mut [i32],
    entries: &mut [i32],
    out: &mut [i32],
) -> usize
    ensures { 6 ≤ length out.old → (2 ≤ result) × (result ≤ length out.new) }
{
    let answer = file_reading::deserialize(file, instructions, kerns, entries);
    put_font(out, answer, instructions, kerns, entries)
}

// Lends as many places of the three lists as are asked for.
fn read_within(
    numbers: &[i32],
    file: &[u8],
    instructions: &mut [i32],
    kerns: &mut [i32],
    entries: &mut [i32],
    out: &mut [i32],
) -> usize
    ensures { 6 ≤ length out.old → (2 ≤ result) × (result ≤ length out.new) }
{
    let a = within(word_at(numbers, 0), instructions.len());
    let b = within(word_at(numbers, 1), kerns.len());
    let c = within(word_at(numbers, 2), entries.len());
    read_into(
        file,
        &mut instructions[..a],
        &mut kerns[..b],
        &mut entries[..c],
        out,
    )
}

// The numbers of the answer. Their count is within a list that has room for the first six.
pub fn read_file(numbers: &[i32], out: &mut [i32]) -> usize
    ensures { 6 ≤ length out.old → (2 ≤ result) × (result ≤ length out.new) }
{
    let mut file = file_room();
    let mut instructions = number_room();
    let mut kerns = value_room();
    let mut entries = value_room();
    let n = unroll_bytes(items(numbers, 3, 2), &mut file);
    read_within(
        numbers,
        front(&file, n),
        &mut instructions,
        &mut kerns,
        &mut entries,
        out,
    )
}
