// The font: every pair of two characters has a rule, and all 65,536 wait for each other in one chain. For an even left
// the right goes up to 255 (op 2, which inserts the next right) and then the left goes on (op 1, at the right 255); for
// an odd left the right goes down to 0, and then the left goes on. Left 255 goes on to left 0, so that the chain is
// closed, until `open` ends it. The instructions, 766: one of its own for each even left, the 255 that the even lefts
// share, and the same for the odd lefts.
ghost use Rattle.std.specs.Prelude.{◌≤◌};

// Instruction i, a ligature.
fn put_ligature(list: &mut [i32], i: usize, next: u32, right: u32, operand: u32)
    requires { i ≤ 765 }
{
    words::i32s::put_word(list, 4 * i, next);
    words::i32s::put_word(list, 4 * i + 1, right);
    words::i32s::put_word(list, 4 * i + 2, 2);
    words::i32s::put_word(list, 4 * i + 3, operand);
}

// The own instructions of 128 lefts, of which the first goes on to left `onward`: op 1, each followed by the shared
// ones.
fn put_own(list: &mut [i32], from: usize, right: u32, onward: u32)
    requires { (from ≤ 383) × (onward ≤ 2) }
{
    for j in 0u32..128 {
        let operand = 256 + (onward + 2 * j) % 256;
        put_ligature(list, from + (j as usize), 127 - j, right, operand);
    }
}

fn next_shared(j: u32) -> u32 {
    if j == 254 { 4294967295 } else { 0 }
}

// The 255 shared instructions: op 2.
fn put_shared(list: &mut [i32], from: usize, right: u32, inserted: u32)
    requires { (from ≤ 511) × (right ≤ 1) × (inserted ≤ 1) }
{
    for j in 0u32..255 {
        let operand = 512 + inserted + j;
        put_ligature(
            list,
            from + (j as usize),
            next_shared(j),
            right + j,
            operand,
        );
    }
}

// The 766 instructions, closed to a cycle.
pub(crate) fn put_instructions(list: &mut [i32]) {
    put_own(list, 0, 255, 1);
    put_shared(list, 128, 0, 1);
    put_own(list, 383, 0, 2);
    put_shared(list, 511, 1, 0);
}

// The pair (255, 0), whose rule is instruction 510, waits for none: op 0.
pub(crate) fn open(list: &mut [i32]) {
    put_ligature(list, 510, 0, 0, 0);
}

fn entry_of(c: u32) -> u32
    requires { c ≤ 255 }
{
    if c % 2 == 0 { c / 2 } else { 383 + c / 2 }
}

// An entry for each character.
pub(crate) fn put_entries(list: &mut [i32]) {
    for c in 0u32..256 {
        let at = 2 * (c as usize);
        words::i32s::put_word(list, at, c);
        words::i32s::put_word(list, at + 1, entry_of(c));
    }
}
