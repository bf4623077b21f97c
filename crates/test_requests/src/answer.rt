// The numbers of an answer, written one after another. Where there is no room nothing is written, and the place stays.
ghost use Rattle.std.specs.Prelude.{◌≡◌, ◌%◌, ◌≤◌, length};
ghost use Rattle.test_requests.specs.Answers.{Put, CountWithin, bit_of};

use lang::Written;

// 1 where a thing is so.
pub fn bit(is: bool) -> u32
    ensures { result ≡ bit_of is }
{
    u32::from(is)
}

// A number, by its bits. The place after it.
pub fn put_one(out: &mut [i32], at: usize, word: u32) -> usize
    ensures { Put out.old at word result out.new }
{
    words::i32s::put_word(out, at, word);
    if at < out.len() { at + 1 } else { at }
}

// A count, which is below 2^32.
pub fn put_count(out: &mut [i32], at: usize, n: usize) -> usize
    ensures { Put out.old at (n % 4294967296) result out.new }
{
    put_one(out, at, (n % 4294967296) as u32)
}

// The numbers of a list.
pub fn put_list(out: &mut [i32], at: usize, list: &[i32]) -> usize
    ensures { at ≤ length out.old → (at ≤ result) × (result ≤ length out.new) }
{
    let mut next = at;
    for number in list {
        next = put_one(out, next, words::word_of(*number));
    }
    next
}

// The first n numbers of a list of u32.
pub fn put_words(out: &mut [i32], at: usize, list: &[u32], n: usize) -> usize
    ensures { at ≤ length out.old → (at ≤ result) × (result ≤ length out.new) }
{
    let mut next = at;
    for i in 0..n {
        next = put_one(out, next, words::slices::item_at(list, i));
    }
    next
}

// An answer that there was room for, else 15.
pub fn fitting(answer: Written, room: usize) -> Written
    ensures { CountWithin result room }
{
    match answer {
        Written::Count(n) => if n < room {
            Written::Count(n)
        } else {
            Written::Refused(15)
        },
        Written::Refused(n) => Written::Refused(n),
    }
}
