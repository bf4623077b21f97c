// The parts that a row's ops are made of, over any rows: counting and writing both go by them. On rows whose rules are
// written they are those of specs/OpSteps.antt of crate `compiling`, after lines 171 to 398 of ligkern/compiler.rs.
#![tactic(auto)]

ghost use Rattle.std.specs.Prelude.{◌≡◌};
ghost use Rattle.compiling.specs.OpSteps.{left_part};
ghost use Rattle.compile_op_parts.specs.FoundParts.{pair_found, last_found, place_of, first_found, second_found};

use compile_rows::{find, get};
use compiling::Part;

// A left that is finished: 0 is the boundary, which gives nothing.
fn left_part(left: u32) -> Part
    ensures { result ≡ left_part left }
{
    if left == 0 {
        Part::Nothing
    } else {
        Part::Character(left - 1)
    }
}

// The ops of a pair: those of its row; where it has none, its left finished.
fn pair_part(work: &[u32], n: usize, left: u32, right: u32) -> Part
    ensures { result ≡ pair_found n work.now left right }
{
    match find(work, n, left, right) {
        Some(k) => Part::OfRow(k),
        None => left_part(left),
    }
}

// The code of a pair's last: its row's; where it has none, its right's.
fn last_code(work: &[u32], n: usize, left: u32, right: u32) -> u32
    ensures { result ≡ last_found n work.now left right }
{
    match find(work, n, left, right) {
        Some(k) => get(work, k, 6),
        None => right,
    }
}

// The place of a character among the lefts.
fn place_of(code: u32) -> u32
    ensures { result ≡ place_of code }
{
    if code < 256 { code + 1 } else { 0 }
}

// What stands first in row k's ops.
pub fn first_part(work: &[u32], n: usize, k: usize) -> Part
    ensures { result ≡ first_found n work.now k }
{
    let op = get(work, k, 3);
    let left = get(work, k, 0);
    let value = get(work, k, 4);
    if 6 <= op {
        return left_part(left);
    }
    if op == 2 {
        return pair_part(work, n, left, value);
    }
    if op == 3 {
        return pair_part(work, n, left, value);
    }
    Part::Nothing
}

// What follows it, with its first character a ligature.
pub fn second_part(work: &[u32], n: usize, k: usize) -> Part
    ensures { result ≡ second_found n work.now k }
{
    let op = get(work, k, 3);
    let left = get(work, k, 0);
    let right = get(work, k, 1);
    let value = get(work, k, 4);
    match op {
        128 => Part::Kern(value),
        5 | 11 => Part::Ligature(value),
        1 | 7 => pair_part(work, n, place_of(value), right),
        3 => pair_part(work, n, place_of(last_code(work, n, left, value)), right),
        _ => Part::Nothing,
    }
}
