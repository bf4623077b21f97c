// An answer as a line: its letter, and its numbers in decimal; `panic` and a number where the Rust panics, `?` and a
// number where the port refuses what the Rust answers.
ghost use Rattle.std.specs.Prelude.{◌≤◌, length};

use lang::Written;

// Byte b at place k of the line; where there is no room nothing is done. The place after it.
fn put_byte(line: &mut [u8], k: usize, b: u8) -> usize
    requires { k ≤ length line.old }
    ensures { result ≤ length line.new }
{
    if k < line.len() {
        line[k] = b;
        return k + 1;
    }
    k
}

fn put_bytes(line: &mut [u8], k: usize, bytes: &[u8]) -> usize
    requires { k ≤ length line.old }
    ensures { result ≤ length line.new }
{
    let mut at = k;
    for b in bytes {
        at = put_byte(line, at, *b);
    }
    at
}

// The highest power of ten, up to 10^9, that is at most size; 1 for 0.
fn top_place(size: u32) -> u32
    ensures { result ≤ 1000000000 }
{
    let mut place: u32 = 1000000000;
    while size < place {
        if place <= 1 {
            return 1;
        }
        place = place / 10;
    }
    place
}

// The digits of size, from a power of ten down.
fn put_digits(line: &mut [u8], k: usize, size: u32, top: u32) -> usize
    requires { k ≤ length line.old }
    ensures { result ≤ length line.new }
{
    let mut at = k;
    let mut place = top;
    while 0 < place {
        let digit = (size / place % 10) as u8;
        at = put_byte(line, at, digit + b'0');
        place = place / 10;
    }
    at
}

// A blank and the number with these 32 bits, in decimal.
fn put_number(line: &mut [u8], k: usize, word: u32) -> usize
    requires { k ≤ length line.old }
    ensures { result ≤ length line.new }
{
    let a = put_byte(line, k, b' ');
    if 2147483648 <= word {
        let size = word.wrapping_neg();
        let b = put_byte(line, a, b'-');
        return put_digits(line, b, size, top_place(size));
    }
    put_digits(line, a, word, top_place(word))
}

// The first n numbers of a list.
fn put_numbers(line: &mut [u8], k: usize, numbers: &[i32], n: usize) -> usize
    requires { k ≤ length line.old }
    ensures { result ≤ length line.new }
{
    let mut at = k;
    for i in 0..n {
        at = put_number(line, at, words::i32s::word_at(numbers, i));
    }
    at
}

// The Rust panics where the port answers 10, 11 or 13; another refusal it does not have.
fn put_cause(line: &mut [u8], k: usize, refusal: u32) -> usize
    requires { k ≤ length line.old }
    ensures { result ≤ length line.new }
{
    match refusal {
        10 | 11 | 13 => put_bytes(line, k, b" panic"),
        _ => put_bytes(line, k, b" ?"),
    }
}

// A refusal: its cause and its number.
fn put_refusal(line: &mut [u8], k: usize, refusal: u32) -> usize
    requires { k ≤ length line.old }
    ensures { result ≤ length line.new }
{
    let a = put_cause(line, k, refusal);
    put_number(line, a, refusal)
}

// The numbers of an answer, or its refusal.
fn put_answer(line: &mut [u8], k: usize, answer: Written, numbers: &[i32]) -> usize
    requires { k ≤ length line.old }
    ensures { result ≤ length line.new }
{
    match answer {
        Written::Count(n) => put_numbers(line, k, numbers, n),
        Written::Refused(n) => put_refusal(line, k, n),
    }
}

// The line of an answer. How many bytes it has.
pub fn put_line(line: &mut [u8], letter: u8, answer: Written, numbers: &[i32]) -> usize
    ensures { result ≤ length line.new }
{
    let a = put_byte(line, 0, letter);
    let b = put_answer(line, a, answer, numbers);
    put_byte(line, b, b'\n')
}
