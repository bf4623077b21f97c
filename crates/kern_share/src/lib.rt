// Kern values shared in place: each value, and each index past the kerns, becomes the index of the first kern that
// equals it, which is added after the others where there is none.
#![tactic(auto)]

ghost use Rattle.std.specs.Prelude.{◌≡◌, cond, ◌+◌, ◌<◌, ◌≤◌, leb, length, take, set};
ghost use Rattle.words.specs.Words.{Word, number_of};
ghost use Rattle.words.specs.Lists.{tabulate, Appending};
ghost use Rattle.lang.specs.Every.{both};
ghost use Rattle.lang.specs.Records.{count};
ghost use Rattle.program_kerns.specs.Kerns.{kern_place};
ghost use Rattle.program_kerns.specs.SharedKerns.{holds_value, held_value, all_kerns, shared_number, SharesKerns};
ghost use Rattle.kern_share.specs.Placing.{is_new, shared_at};

use lang::instruction::field_at;
use words::i32s::{put_word, word_at};

// The place of the first of m kerns with these 32 bits; m where there is none.
fn place_of(kerns: &[i32], m: usize, word: u32) -> usize
    requires { m ≤ length kerns.now }
    ensures { result ≡ kern_place (number_of word) (take m kerns.now) }
{
    for p in 0..m {
        if word_at(kerns, p) == word {
            return p;
        }
    }
    m
}

// Instruction i holds a value: a kern value, or an index past the k kerns.
fn holds_value(instructions: &[i32], k: usize, i: usize) -> bool
    ensures { result ≡ holds_value instructions.now k i }
{
    if instructions.len() / 4 <= i {
        return false;
    }
    let kind = field_at(instructions, i, 2);
    if kind == 0 {
        return true;
    }
    if kind != 1 {
        return false;
    }
    let operand = field_at(instructions, i, 3);
    k <= (operand as usize) && operand <= 65535
}

// That value, as its 32 bits: an index past the kerns means a kern of zero.
fn held_word(instructions: &[i32], i: usize) -> u32
    ensures { Word (held_value instructions.now i) result }
{
    if field_at(instructions, i, 2) == 0 {
        return field_at(instructions, i, 3);
    }
    0
}

// The value of instruction i, if it holds one, after the m kerns that are there, unless it is among them. Answers how
// many kerns there then are.
fn share_value(instructions: &[i32], k: usize, i: usize, kerns: &mut [i32], m: usize) -> usize
    requires { m < length kerns.old }
    ensures value { result ≡ cond (is_new instructions.now k i kerns.old m) (m + 1) m }
    ensures kerns_after { kerns.new ≡ cond (is_new instructions.now k i kerns.old m)
        (set kerns.old m (held_value instructions.now i)) kerns.old }
{
    if !holds_value(instructions, k, i) {
        return m;
    }
    let word = held_word(instructions, i);
    if place_of(kerns, m, word) != m {
        return m;
    }
    put_word(kerns, m, word);
    m + 1
}

// The values of the instructions, each once, after the k kerns that are there. Answers how many kerns there are.
fn gather(instructions: &[i32], kerns: &mut [i32], k: usize) -> usize
    requires { k + count instructions.now ≤ length kerns.old }
    ensures value { result ≡ length (all_kerns instructions.now (take k kerns.old)) }
    ensures appending { Appending (all_kerns instructions.now (take k kerns.old))
        kerns.old kerns.new }
{
    let mut m = k;
    for i in 0..instructions.len() / 4 {
        m = share_value(instructions, k, i, kerns, m);
    }
    m
}

// Instruction i with its value as the index of a kern.
fn share_at(instructions: &mut [i32], kerns: &[i32], k: usize, i: usize)
    requires { (length kerns.now ≤ 65536) × (i < count instructions.old) }
    ensures { instructions.new ≡ shared_at instructions.old kerns.now k i }
{
    if holds_value(instructions, k, i) {
        let place = place_of(kerns, kerns.len(), held_word(instructions, i));
        put_word(instructions, 4 * i + 2, 1);
        put_word(instructions, 4 * i + 3, place as u32);
    }
}

// All instructions so.
fn share_all(instructions: &mut [i32], kerns: &[i32], k: usize)
    requires { length kerns.now ≤ 65536 }
    ensures { instructions.new ≡ tabulate (length instructions.old)
        (shared_number instructions.old kerns.now k) }
{
    for i in 0..instructions.len() / 4 {
        share_at(instructions, kerns, k, i);
    }
}

// Room for a kern more for each of n instructions behind the k kerns that are there, and no index above 65,535.
fn has_room(n: usize, k: usize, room: usize) -> bool
    ensures { result ≡ both (leb (k + n) 65536) (leb (k + n) room) }
{
    if 65536 < k {
        return false;
    }
    if 65536 - k < n {
        return false;
    }
    k + n <= room
}

// The kern values of a program shared in place, after the first k of the kerns. Answers how many kerns there are then;
// without room for one more for each instruction nothing changes.
pub fn share_kerns(instructions: &mut [i32], kerns: &mut [i32], k: usize) -> usize
    ensures { SharesKerns instructions.old kerns.old k result instructions.new
        kerns.new }
{
    if !has_room(instructions.len() / 4, k, kerns.len()) {
        return k;
    }
    let m = gather(instructions, kerns, k);
    share_all(instructions, &kerns[..m], k);
    m
}
