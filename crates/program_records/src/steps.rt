// The work of a walk over records, on a record or on numbers: what is asked of the slice itself is asked in the crate's
// root.
ghost use Rattle.std.specs.Prelude.{◌≡◌, ◌<◌, ◌^◌};
ghost use Rattle.program_chain.specs.Chains.{step_at, is_rule_for};
ghost use Rattle.program_records.specs.RecordChains.{zero_record};
ghost use Rattle.program_records.specs.WalkSteps.{searches_on, onward_of, rule_where, early_refusal, refusal_by};
ghost use Rattle.program_records.specs.WalkSteps.{start_of, step_index, moved_by, put_by, FinishesWalk};

use lang::Written;
use lang::instruction::Instruction;
use lang::operation::Operation;
use program_checks::range_refusal;
use tfm::{Char, FixWord};

// Where a walk is, and how many indices it has passed.
#[derive(Clone, Copy)]
pub(crate) struct ChainWalk {
    pub at: usize,
    pub count: usize,
}

// The instruction of four zeros.
pub(crate) fn zeros() -> Instruction
    ensures { result ≡ zero_record }
{
    Instruction {
        next_instruction: Some(0),
        right_char: Char(0),
        operation: Operation::Kern(FixWord::ZERO),
    }
}

// The step from index `at` of n records, where the record there is x.
pub(crate) fn step(n: usize, x: Instruction, at: usize) -> Option<(usize, usize)>
    requires { n < 2 ^ 63 }
    ensures { result ≡ step_at n (λ _. x) at }
{
    if n <= at {
        return None;
    }
    let next = x.next_instruction;
    match next {
        None => Some((at, n)),
        Some(k) => Some((at, at + 1 + (k as usize))),
    }
}

// A record can be the rule of a right character: it is no redirect, and has that character.
fn is_rule_for(x: Instruction, right: u8) -> bool
    ensures { result ≡ is_rule_for right x }
{
    let operation = x.operation;
    match operation {
        Operation::EntrypointRedirect(_, _) => false,
        _ => {
            let c = x.right_char;
            c.0 == right
        }
    }
}

// A search goes on: the walk is at a record, and that can't be the rule of the right character.
pub(crate) fn searches_on(n: usize, x: Instruction, at: usize, right: u8) -> bool
    ensures { result ≡ searches_on n x at right }
{
    if n <= at {
        return false;
    }
    !is_rule_for(x, right)
}

// Where a step goes on.
pub(crate) fn onward(next: Option<(usize, usize)>) -> usize
    ensures { result ≡ onward_of next }
{
    match next {
        Some((_, on)) => on,
        None => 0,
    }
}

// The rule where a search has stopped.
pub(crate) fn rule_at(n: usize, at: usize) -> Option<usize>
    ensures { result ≡ rule_where n at }
{
    if at < n {
        return Some(at);
    }
    None
}

// 1 of the records, 4 of the entry.
fn early_refusal(n: usize, entry: i32) -> u32
    ensures { result ≡ early_refusal n entry }
{
    if 32767 < n {
        return 1;
    }
    range_refusal(65535, entry)
}

// The same, and 15 where `count` indices are more than the room for them.
fn refusal(n: usize, entry: i32, count: usize, room: usize) -> u32
    ensures { result ≡ refusal_by n entry count room }
{
    let early = early_refusal(n, entry);
    if early != 0 {
        return early;
    }
    if room < count {
        return 15;
    }
    0
}

// A walk begins at its entry; where it is refused it begins past the last record, and is over.
pub(crate) fn begin(n: usize, entry: i32) -> ChainWalk
    ensures { result ≡ record { at = start_of n entry; count = 0 } }
{
    if early_refusal(n, entry) != 0 {
        return ChainWalk { at: n, count: 0 };
    }
    ChainWalk {
        at: words::word_of(entry) as usize,
        count: 0,
    }
}

// The index that a step passes is written at the end of those before it, where there is room, and the walk goes on.
pub(crate) fn put(walk: ChainWalk, next: Option<(usize, usize)>, out: &mut [u32]) -> ChainWalk
    requires { (step_index next < 2 ^ 32) × (walk.count < 2 ^ 32) }
    ensures { (result ≡ moved_by walk next) × (out.new ≡ put_by walk next out.old) }
{
    let k = walk.count;
    match next {
        Some((i, on)) => {
            words::slices::put_item(out, k, i as u32);
            ChainWalk {
                at: on,
                count: k + 1,
            }
        }
        None => walk,
    }
}

// After the `count` indices of a walk come zeros; where it is refused the list is zeros.
pub(crate) fn finish(n: usize, entry: i32, count: usize, out: &mut [u32]) -> Written
    ensures { FinishesWalk n entry count out.old result out.new }
{
    let refused = refusal(n, entry, count, out.len());
    if refused != 0 {
        words::slices::zero_all(out);
        return Written::Refused(refused);
    }
    words::slices::zero_all(&mut out[count..]);
    Written::Count(count)
}
