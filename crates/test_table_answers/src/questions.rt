// The answers about a pair table: A. The list has room for 1,024 pairs.
use crate::room;
use captions::Told;
use lang::Written;
use table_queries::{all_pairs_with_replacements, has_replacement};
use table_seven_bit::is_seven_bit_safe;
use test_requests::answer::{bit, put_count, put_list, put_one};
use test_requests::request::{from_end, number_at, part};

// 1 where the answer is yes, else 0.
fn is_so(answer: Told) -> u32 {
    match answer {
        Told::Is(yes) => bit(yes),
        Told::Refused(_) => 0,
    }
}

// Every pair of a list has a replacement.
fn are_replaced(pairs: &[i32], boundary: i32, keys: &[i32]) -> bool {
    for i in (0..keys.len()).step_by(2) {
        let left = number_at(keys, i);
        let right = number_at(keys, i + 1);
        if is_so(has_replacement(pairs, boundary, left, right)) == 0 {
            return false;
        }
    }
    true
}

// The pairs, and whether the table is seven-bit safe.
fn put_safe(out: &mut [i32], keys: &[i32], safe: Told) -> Written {
    match safe {
        Told::Is(yes) => {
            let a = put_count(out, 0, keys.len() / 2);
            let b = put_list(out, a, keys);
            Written::Count(put_one(out, b, bit(yes)))
        }
        Told::Refused(n) => Written::Refused(n),
    }
}

// The pairs that were listed, and whether the table is seven-bit safe; 7 where a listed pair is said to have no
// replacement.
fn put_replaced(
    out: &mut [i32],
    listed: Written,
    list: &[i32],
    boundary: i32,
    pairs: &[i32],
    ops: &[i32],
) -> Written {
    match listed {
        Written::Count(n) => {
            let keys = part(list, 0, n % 4294967296 * 2);
            if !are_replaced(pairs, boundary, keys) {
                return Written::Refused(7);
            }
            put_safe(out, keys, is_seven_bit_safe(pairs, ops))
        }
        Written::Refused(n) => Written::Refused(n),
    }
}

// The pairs with a replacement, and whether the table is seven-bit safe.
pub(crate) fn replaced(numbers: &[i32], pairs: &[i32], ops: &[i32], out: &mut [i32]) -> Written {
    let mut list = room::list();
    let listed = all_pairs_with_replacements(pairs, &mut list);
    let boundary = number_at(numbers, from_end(numbers, 2));
    put_replaced(out, listed, &list, boundary, pairs, ops)
}
