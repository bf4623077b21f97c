// The answers of the port to requests that write a program anew, with the letters of tools/oracle: K, J and P. A
// request has at most 16,384 numbers, so a program at most 4,096 instructions.
#![tactic(auto)]

ghost use Rattle.std.specs.Prelude.{◌≡◌, length};
ghost use Rattle.test_requests.specs.Answers.{CountWithin};

use crate::instructions::put_instructions;
use lang::Written;
use pack::Packed;
use test_requests::answer::{fitting, put_count, put_list, put_one};
use test_requests::request::{entries_of, from_end, instructions_of, kerns_of, number_at, part};

mod instructions;

// Room for a program, four numbers an instruction.
fn records() -> [i32; 16384]
    ensures { 16384 ≡ length result }
{
    [0; 16384]
}

// Room for a kern an instruction, or the entries of 256 characters.
fn values() -> [i32; 4096]
    ensures { 4096 ≡ length result }
{
    [0; 4096]
}

// J FONT
fn with_kerns(font: &[i32], out: &mut [i32]) -> Written {
    let mut program = records();
    match program_kerns::pack_kerns(instructions_of(font), kerns_of(font), &mut program) {
        Written::Count(n) => Written::Count(put_instructions(out, 0, &program, n)),
        Written::Refused(n) => Written::Refused(n),
    }
}

// K FONT
fn with_indices(font: &[i32], out: &mut [i32]) -> Written {
    let mut program = records();
    let mut list = values();
    let instructions = instructions_of(font);
    match program_kerns::unpack_kerns(instructions, &mut program, &mut list) {
        Written::Count(m) => {
            let a = put_count(out, 0, m);
            let b = put_list(out, a, part(&list, 0, m));
            Written::Count(put_instructions(out, b, &program, instructions.len() / 4))
        }
        Written::Refused(n) => Written::Refused(n),
    }
}

// The packed program, its entries, and the left entry, which stays as it was.
fn put_packed(out: &mut [i32], program: &[i32], n: usize, entries: &[i32], left: u32) -> usize {
    let a = put_instructions(out, 0, program, n);
    let b = put_count(out, a, entries.len() / 2);
    let c = put_list(out, b, entries);
    put_one(out, c, left)
}

// P FONT
fn packed(font: &[i32], out: &mut [i32]) -> Written {
    let mut program = records();
    let mut listed = values();
    let entries = entries_of(font);
    let left = number_at(font, from_end(font, 1));
    match pack::pack_entrypoints(
        instructions_of(font),
        entries,
        number_at(font, from_end(font, 2)),
        left,
        &mut program,
        &mut listed,
    ) {
        Packed::Sizes(n, _, _) => {
            let kept = part(&listed, 0, entries.len());
            Written::Count(put_packed(out, &program, n, kept, words::word_of(left)))
        }
        Packed::Refused(n) => Written::Refused(n),
    }
}

fn answer_by(letter: u8, font: &[i32], out: &mut [i32]) -> Written {
    match letter {
        b'K' => with_indices(font, out),
        b'J' => with_kerns(font, out),
        b'P' => packed(font, out),
        _ => Written::Refused(16),
    }
}

// The numbers of the answer to a request, or the number of its refusal: 15 where the list is too short, 16 for another
// letter.
pub fn answer(letter: u8, font: &[i32], out: &mut [i32]) -> Written
    ensures { CountWithin result (length out.new) }
{
    let answer = answer_by(letter, font, out);
    fitting(answer, out.len())
}
