// The text of requests: lines of a letter and decimal numbers.
ghost use Rattle.std.specs.Prelude.{◌<◌, ◌≤◌, length};

// A number that was read, as its 32 bits, and the place after it.
#[derive(Clone, Copy)]
struct Number {
    word: u32,
    next: usize,
}

// The place of the line feed from `at` on, or the end of the text where there is none.
pub fn line_end(text: &[u8], at: usize) -> usize
    ensures { at ≤ length text.now → (at ≤ result) × (result ≤ length text.now) }
{
    for i in at..text.len() {
        if text[i] == b'\n' {
            return i;
        }
    }
    at.max(text.len())
}

fn is_digit(c: u8) -> bool {
    c.is_ascii_digit()
}

fn with_digit(value: u32, c: u8) -> u32 {
    value.wrapping_mul(10).wrapping_add(u32::from(c % 48))
}

// The digits from `at` on, as a number.
fn digits(text: &[u8], at: usize) -> Number
    ensures { at ≤ result.next }
{
    let mut value: u32 = 0;
    for i in at..text.len() {
        let c = text[i];
        if !is_digit(c) {
            return Number {
                word: value,
                next: i,
            };
        }
        value = with_digit(value, c);
    }
    Number {
        word: value,
        next: at.max(text.len()),
    }
}

// The number after the blank at `at`: a sign, where there is one, and digits.
fn read_number(text: &[u8], at: usize) -> Number
    requires { at < length text.now }
    ensures { at < result.next }
{
    let from = at + 1;
    if words::slices::item_at(text, from) == b'-' {
        let n = digits(text, from + 1);
        return Number {
            word: n.word.wrapping_neg(),
            next: n.next,
        };
    }
    digits(text, from)
}

// The numbers of a line, from the place after its letter. How many there are.
pub fn numbers_of(text: &[u8], numbers: &mut [i32]) -> usize
    ensures { result ≤ length text.now }
{
    let mut i = 1;
    let mut count = 0;
    while i < text.len() {
        let n = read_number(text, i);
        words::i32s::put_word(numbers, count, n.word);
        count += 1;
        i = n.next;
    }
    count
}
