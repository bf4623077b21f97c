// What a packed entry stands for (TeX 545): a redirect's target, or itself; and whether it can be followed (TFtoPL 67).
// After the first part of `unpack_entrypoint` of ligkern/lang.rs (lines 533 to 551).
#![tactic(auto)]

ghost use Rattle.std.specs.Prelude.{◌≡◌};
ghost use Rattle.lang.specs.Records.{is_kind};
ghost use Rattle.entry_targets.specs.Targets.{target_at, stands_for, entry_refusal};

use lang::instruction::field_at;

// The instruction at index i is a redirect.
pub fn is_redirect(instructions: &[i32], i: usize) -> bool
    ensures { result ≡ is_kind 3 instructions.now i }
{
    field_at(instructions, i, 2) == 3
}

// The target of the redirect at index i.
fn target_at(instructions: &[i32], i: usize) -> usize
    ensures { result ≡ target_at instructions.now i }
{
    (field_at(instructions, i, 3) % 65536) as usize
}

// What an entry stands for: a redirect's target, or itself.
pub fn stands_for(instructions: &[i32], entry: usize) -> usize
    ensures { result ≡ stands_for instructions.now entry }
{
    if is_redirect(instructions, entry) {
        target_at(instructions, entry)
    } else {
        entry
    }
}

// 8 and 9 of an entry; 0 where it can be followed.
pub fn entry_refusal(instructions: &[i32], entry: usize) -> u32
    ensures { result ≡ entry_refusal instructions.now entry }
{
    let n = instructions.len() / 4;
    if n <= entry {
        return 8;
    }
    if !is_redirect(instructions, entry) {
        return 0;
    }
    if target_at(instructions, entry) < n {
        0
    } else {
        9
    }
}
