// A font repaired, and the answers of the port to the requests X and Y of tools/oracle: X asks for the warnings, and
// commits with them; Y commits with the list that it has. A request has at most 16,384 numbers, so a program at most
// 4,096 instructions; there is room for 4,096 warnings, and for 1,024 pairs with a rule.
#![tactic(auto)]

ghost use Rattle.std.specs.Prelude.{◌≡◌, length};
ghost use Rattle.test_requests.specs.Answers.{CountWithin};

use lang::Written;
use repair_ask::ask_repair;
use repair_commit::commit_repair;
use repairs::Committed;
use test_requests::answer::{fitting, put_count, put_list, put_one};
use test_requests::request::{
    after, entries_of, from_end, front, instructions_of, items, kerns_of, number_at, part, rest,
};
use test_requests::sets::{mark, put_set};

// Four numbers an instruction or a warning.
fn records() -> [i32; 16384]
    ensures { 16384 ≡ length result }
{
    [0; 16384]
}

// A byte an instruction.
fn places() -> [u8; 4096]
    ensures { 4096 ≡ length result }
{
    [0; 4096]
}

// Sixteen numbers a pair with a rule.
fn rows() -> [u32; 16384]
    ensures { 16384 ≡ length result }
{
    [0; 16384]
}

// Sixty-four characters, the lower half first.
fn word_pair(low: u32, high: u32) -> u64 {
    (high as u64) * 4294967296 + (low as u64)
}

// The existing characters, from the eight numbers after the first.
fn existing_of(numbers: &[i32]) -> [u64; 4] {
    [
        word_pair(
            words::i32s::word_at(numbers, 1),
            words::i32s::word_at(numbers, 2),
        ),
        word_pair(
            words::i32s::word_at(numbers, 3),
            words::i32s::word_at(numbers, 4),
        ),
        word_pair(
            words::i32s::word_at(numbers, 5),
            words::i32s::word_at(numbers, 6),
        ),
        word_pair(
            words::i32s::word_at(numbers, 7),
            words::i32s::word_at(numbers, 8),
        ),
    ]
}

// The warnings of a font, and how many they are.
fn ask_font(
    font: &[i32],
    replacement: i32,
    existing: &[u64; 4],
    marks: &[u8],
    warnings: &mut [i32],
) -> Written {
    let instructions = instructions_of(font);
    let mut work = rows();
    ask_repair(
        instructions,
        kerns_of(font),
        entries_of(font),
        number_at(font, from_end(font, 2)),
        number_at(font, from_end(font, 1)),
        replacement,
        existing,
        front(marks, instructions.len() / 4),
        warnings,
        &mut work,
    )
}

// Repairs a font, if these are its warnings.
fn commit_font(
    handed: &[i32],
    font: &[i32],
    replacement: i32,
    existing: &[u64; 4],
    marks: &[u8],
    fixed: &mut [i32],
    through: &mut [u8],
) -> Committed {
    let instructions = instructions_of(font);
    let mut found = records();
    let mut work = rows();
    commit_repair(
        handed,
        instructions,
        kerns_of(font),
        entries_of(font),
        number_at(font, from_end(font, 2)),
        number_at(font, from_end(font, 1)),
        replacement,
        existing,
        front(marks, instructions.len() / 4),
        fixed,
        through,
        &mut found,
        &mut work,
    )
}

// The instructions, the left entry and the passthrough list.
fn put_repaired(
    out: &mut [i32],
    at: usize,
    instructions: &[i32],
    left: u32,
    through: &[u8],
) -> usize {
    let a = put_count(out, at, instructions.len() / 4);
    let b = put_list(out, a, instructions);
    let c = put_one(out, b, left);
    put_set(out, c, through)
}

// What committing answered, and what it wrote for a program of so many numbers.
fn put_committed(
    out: &mut [i32],
    at: usize,
    answer: Committed,
    n: usize,
    fixed: &[i32],
    through: &[u8],
) -> Written {
    match answer {
        Committed::Fixed(left) => {
            let left_word = words::word_of(left);
            Written::Count(put_repaired(out, at, part(fixed, 0, n), left_word, through))
        }
        Committed::Refused(number) => Written::Refused(number),
    }
}

// smallest e0 .. e7 PASSTHROUGH FONT: the font's warnings.
fn asked(numbers: &[i32], warnings: &mut [i32]) -> Written {
    let font = rest(numbers, after(numbers, 9, 1));
    let existing = existing_of(numbers);
    let mut marks = places();
    mark(items(numbers, 9, 1), &mut marks);
    ask_font(font, number_at(numbers, 0), &existing, &marks, warnings)
}

// The same: the font repaired, from place `at` of the answer on.
fn committed(handed: &[i32], numbers: &[i32], out: &mut [i32], at: usize) -> Written {
    let font = rest(numbers, after(numbers, 9, 1));
    let existing = existing_of(numbers);
    let mut marks = places();
    mark(items(numbers, 9, 1), &mut marks);
    let mut fixed = records();
    let mut through = places();
    let answer = commit_font(
        handed,
        font,
        number_at(numbers, 0),
        &existing,
        &marks,
        &mut fixed,
        &mut through,
    );
    let n = instructions_of(font).len();
    put_committed(out, at, answer, n, &fixed, &through)
}

// X smallest e0 .. e7 PASSTHROUGH FONT
fn repaired(numbers: &[i32], out: &mut [i32]) -> Written {
    let mut warnings = records();
    match asked(numbers, &mut warnings) {
        Written::Refused(number) => Written::Refused(number),
        Written::Count(count) => {
            let listed = part(&warnings, 0, count % 4294967296 * 4);
            let a = put_count(out, 0, listed.len() / 4);
            let b = put_list(out, a, listed);
            committed(listed, numbers, out, b)
        }
    }
}

// Y LIST smallest e0 .. e7 PASSTHROUGH FONT
fn handed_over(numbers: &[i32], out: &mut [i32]) -> Written {
    committed(
        items(numbers, 0, 1),
        rest(numbers, after(numbers, 0, 1)),
        out,
        0,
    )
}

// By the letter.
fn answer_by(letter: u8, numbers: &[i32], out: &mut [i32]) -> Written {
    if letter == b'Y' {
        return handed_over(numbers, out);
    }
    repaired(numbers, out)
}

// The numbers of the answer to a request, or the number of its refusal: 15 where a list is too short.
pub fn answer(letter: u8, numbers: &[i32], out: &mut [i32]) -> Written
    ensures { CountWithin result (length out.new) }
{
    let answer = answer_by(letter, numbers, out);
    fitting(answer, out.len())
}
