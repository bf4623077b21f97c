// The words of each caller as test_chip counts them itself: one more at each end that is taken, for the caller of the
// last begin that was.
#![tactic(auto)]

ghost use Rattle.std.specs.Prelude.{◌≡◌, ◌≢◌};

use lang::Written;
use test_requests::answer::put_one;
use test_requests::request::front;
use test_requests::write::put_line;
use words::slices::item_at;

#[derive(Clone, Copy)]
pub struct Counted {
    pub caller: usize,
    pub counts: [u32; 8],
}

// After a command that was taken, of which `block` has the first bytes.
fn counted_on(block: &[u8], before: Counted) -> Counted {
    let command = item_at(block, 0);
    let mut after = before;
    if command == 1 {
        after.caller = (item_at(block, 1) % 8) as usize;
    }
    if command == 3 {
        let mut counts = after.counts;
        let caller = after.caller % 8;
        counts[caller] = std::num::wrapping_add_u32(counts[caller], 1);
        after.counts = counts;
    }
    after
}

// The number that bytes 4 to 7 of a block show.
fn shown(block: &[u8]) -> u32 {
    let high = (item_at(block, 4) as u32) * 256 + (item_at(block, 5) as u32);
    let low = (item_at(block, 6) as u32) * 256 + (item_at(block, 7) as u32);
    high * 65536 + low
}

// What was counted for the caller, and 1 where the block shows it.
fn print(rt: &impl Print, count: u32, same: u32) {
    let mut out = [0i32; 2];
    let mut line = [0u8; 64];
    let at = put_one(&mut out, 0, count);
    let n = put_one(&mut out, at, same);
    let k = put_line(&mut line, b'W', Written::Count(n), &out);
    let _ = rt.write_all(front(&line, k));
}

// What is counted for the caller.
fn own(counted: Counted) -> u32 {
    let counts = counted.counts;
    item_at(&counts, counted.caller)
}

fn same(a: u32, b: u32) -> u32 {
    if a == b { 1 } else { 0 }
}

// After a command: what is counted then, the same as before where it was refused. It is written, where callers are
// looked at.
pub fn count_on(
    rt: &impl Print,
    callers: bool,
    number: u32,
    block: &[u8],
    before: Counted,
) -> Counted
    ensures { (number ≢ 0) → result ≡ before }
{
    if !callers {
        return before;
    }
    if number != 0 {
        print(rt, own(before), 0);
        return before;
    }
    let after = counted_on(block, before);
    let count = own(after);
    print(rt, count, same(shown(block), count));
    after
}
