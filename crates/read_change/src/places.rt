// Numbers taken out of a list and put into it: what follows moves, and the list keeps its length.
ghost use Rattle.std.specs.Prelude.{◌≡◌, length};
ghost use Rattle.words.specs.Words.{number_of};
ghost use Rattle.read_change.specs.Fitted.{fitted, without, with_two};

use words::i32s::{put_word, word_at};

// The n numbers at a place go; zeros come in at the end.
pub fn remove(s: &mut [i32], at: usize, n: usize)
    ensures { s.new ≡ fitted (length s.old) (without at n s.old) }
{
    let far = n.min(s.len());
    for i in at.min(s.len())..s.len() {
        put_word(s, i, word_at(s, i + far));
    }
}

// Two numbers come in at a place; what passes the end is left off.
pub fn insert(s: &mut [i32], at: usize, first: u32, second: u32)
    ensures { s.new ≡ fitted (length s.old)
        (with_two at (number_of first) (number_of second) s.old) }
{
    let mut a = first;
    let mut b = second;
    for i in at.min(s.len())..s.len() {
        let w = word_at(s, i);
        put_word(s, i, a);
        a = b;
        b = w;
    }
}
