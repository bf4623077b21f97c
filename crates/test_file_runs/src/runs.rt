// Lists as runs: how many runs, and then for each how often a number stands and the number.
ghost use Rattle.std.specs.Prelude.{◌<◌, ◌≤◌, length};

use test_requests::answer::{put_count, put_one};
use test_requests::request::{part, rest};
use words::i32s::word_at;

// A number so many times. The place after it.
fn put_times(list: &mut [i32], at: usize, times: u32, word: u32) -> usize
    ensures { at ≤ length list.old → (at ≤ result) × (result ≤ length list.new) }
{
    let mut next = at;
    for _ in 0..times {
        next = put_one(list, next, word);
    }
    next
}

// The list whose runs these are. How long it is.
pub fn unroll(runs: &[i32], list: &mut [i32]) -> usize
    ensures { result ≤ length list.new }
{
    let mut next = 0;
    for i in 0..runs.len() / 2 {
        next = put_times(list, next, word_at(runs, 2 * i), word_at(runs, 2 * i + 1));
    }
    next
}

// The place after the run that starts at place i.
fn run_end(list: &[i32], i: usize) -> usize
    requires { i < length list.now }
    ensures { (i < result) × (result ≤ length list.now) }
{
    let word = word_at(list, i);
    for k in i + 1..list.len() {
        if word_at(list, k) != word {
            return k;
        }
    }
    list.len()
}

// A run. The place after it.
fn put_run(out: &mut [i32], at: usize, times: usize, word: u32) -> usize
    ensures { at ≤ length out.old → (at ≤ result) × (result ≤ length out.new) }
{
    let value = put_count(out, at, times);
    put_one(out, value, word)
}

// The runs of a list.
fn put_each(out: &mut [i32], at: usize, list: &[i32]) -> usize
    ensures { at ≤ length out.old → (at ≤ result) × (result ≤ length out.new) }
{
    let mut next = at;
    let mut i = 0;
    while i < list.len() {
        let end = run_end(list, i);
        next = put_run(out, next, end - i, word_at(list, i));
        i = end;
    }
    next
}

// How many runs stand from one place to another.
fn runs_within(from: usize, to: usize) -> usize {
    if to < from {
        return 0;
    }
    (to - from) / 2
}

// The first n numbers of a list: how many runs, and these.
pub fn put_runs(out: &mut [i32], at: usize, list: &[i32], n: usize) -> usize
    ensures { at ≤ length out.old → (at ≤ result) × (result ≤ length out.new) }
{
    let from = put_count(out, at, 0);
    let to = put_each(out, from, part(list, 0, n));
    put_count(out, at, runs_within(from, to));
    to
}

// 1 where a thing is so.
fn one_if(is: bool) -> usize
    ensures { result ≤ 1 }
{
    if is { 1 } else { 0 }
}

// How many numbers of a list are not 0.
fn not_zero(list: &[i32]) -> usize {
    let mut count = 0;
    for i in 0..list.len() {
        count += one_if(word_at(list, i) != 0);
    }
    count
}

// How many numbers behind the first n are not 0.
pub fn left_over(list: &[i32], n: usize) -> usize
    ensures { result < 4294967296 }
{
    not_zero(rest(list, n)) % 4294967296
}
