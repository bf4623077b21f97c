// The pair table and the ops as they are lent, whatever they hold: one number as its 32 bits, and what fits. A pair is
// found by crate table_find.
#![tactic(auto)]

ghost use Rattle.std.specs.Prelude.{◌≡◌};
ghost use Rattle.words.specs.Words.{Word};
ghost use Rattle.captions.specs.Tables.{number, op_kind, op_value, op_fits, record_fits};
ghost use Rattle.table_numbers.specs.Parts.{last_fits};

// Number j of pair k; 0 past the numbers.
pub fn number_at(pairs: &[i32], k: usize, j: u8) -> u32
    ensures { Word (number pairs.now k j) result }
{
    if pairs.len() / 6 < k {
        return 0;
    }
    words::i32s::word_at(pairs, 6 * k + (j as usize))
}

// The kind of op i; 0 past the ops.
pub fn kind_at(ops: &[i32], i: usize) -> u32
    ensures { Word (op_kind ops.now i) result }
{
    if ops.len() / 2 < i {
        return 0;
    }
    words::i32s::word_at(ops, 2 * i)
}

// The value of op i; 0 past the ops.
pub fn value_at(ops: &[i32], i: usize) -> u32
    ensures { Word (op_value ops.now i) result }
{
    if ops.len() / 2 < i {
        return 0;
    }
    words::i32s::word_at(ops, 2 * i + 1)
}

// Op i is there: a character or a ligature with its code, or a kern.
pub fn op_fits(ops: &[i32], i: usize) -> bool
    ensures { result ≡ op_fits ops.now i }
{
    if ops.len() / 2 <= i {
        return false;
    }
    let kind = kind_at(ops, i);
    if kind <= 1 {
        return value_at(ops, i) <= 255;
    }
    kind == 2
}

// Pair k's last has a code and a flag, and equals the right where it is unflagged.
fn last_fits(pairs: &[i32], k: usize) -> bool
    ensures { result ≡ last_fits pairs.now k }
{
    let code = number_at(pairs, k, 2);
    if 255 < code {
        return false;
    }
    let flag = number_at(pairs, k, 3);
    if 1 < flag {
        return false;
    }
    if flag == 1 {
        return true;
    }
    code == number_at(pairs, k, 1)
}

// Pair k's last fits, and its ops are among the ops.
pub fn record_fits(pairs: &[i32], ops: &[i32], k: usize) -> bool
    ensures { result ≡ record_fits pairs.now ops.now k }
{
    if !last_fits(pairs, k) {
        return false;
    }
    let first = number_at(pairs, k, 4) as usize;
    let count = number_at(pairs, k, 5) as usize;
    first + count <= ops.len() / 2
}
