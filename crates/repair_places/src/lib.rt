// Places for the repaired program and its passthrough, in which they stand until it is known that nothing is refused:
// 12, which is of the repaired program, comes before 15 and 25. What the passes of repair leave there is proofs/Left.
#![tactic(auto)]

ghost use Rattle.std.specs.Prelude.{◌≡◌, min, length};
ghost use Rattle.std.proofs.lemmas.List.Edits.{sets};
ghost use Rattle.repair_places.specs.Writing.{WritesRepaired};

use words::slices::zero_all;

// Four places for each instruction that a program can have.
pub fn programs() -> [i32; 131068]
    ensures { length result ≡ 131068 }
{
    [0i32; 131068]
}

// A place for each.
pub fn places() -> [u8; 32767]
    ensures { length result ≡ 32767 }
{
    [0u8; 32767]
}

// As many of n instructions as there are places for.
pub fn placed(n: usize) -> usize
    ensures { result ≡ min n 32767 }
{
    if n <= 32767 { n } else { 32767 }
}

// Numbers copied to the front of a list, as far as it goes.
pub fn copy_numbers(from: &[i32], to: &mut [i32])
    ensures { to.new ≡ sets to.old 0 from.now }
{
    let n = from.len().min(to.len());
    to[..n].copy_from_slice(&from[..n]);
}

fn copy_bytes(from: &[u8], to: &mut [u8])
    ensures { to.new ≡ sets to.old 0 from.now }
{
    let n = from.len().min(to.len());
    to[..n].copy_from_slice(&from[..n]);
}

// The repaired program and its passthrough, with zeros after them, where the number is 0; else zeros.
pub fn write_repaired(
    number: u32,
    program: &[i32],
    passed: &[u8],
    fixed: &mut [i32],
    through: &mut [u8],
)
    ensures { WritesRepaired number program.now passed.now fixed.old
        through.old fixed.new through.new }
{
    zero_all(fixed);
    zero_all(through);
    if number != 0 {
        return;
    }
    copy_numbers(program, fixed);
    copy_bytes(passed, through);
}
