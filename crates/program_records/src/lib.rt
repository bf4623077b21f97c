// Chains over a lent slice of instruction records, after `instructions_for_entrypoint` of ligkern/lang.rs (lines 667 to
// 676 and 1005 to 1026). The four functions that take the slice stand here, and each leaves its work to a function of
// `steps`, which takes a record or numbers.
#![tactic(auto)]

ghost use Rattle.std.specs.Prelude.{◌≡◌, length};
ghost use Rattle.program_chain.specs.Chains.{step_at, rule_index, found};
ghost use Rattle.program_records.specs.RecordChains.{record_at, WalksRecords};

use lang::Written;
use lang::instruction::Instruction;

mod steps;

// The record at index `at`; past the last one, the instruction of four zeros.
fn record_at(instructions: &[Instruction], at: usize) -> Instruction
    ensures { result ≡ record_at instructions.now at }
{
    if at < instructions.len() {
        return instructions[at];
    }
    steps::zeros()
}

// The instruction at index `at` of a walk, and where the walk goes on.
pub fn next_instruction(instructions: &[Instruction], at: usize) -> Option<(usize, usize)>
    ensures { result ≡ step_at (length instructions.now) (record_at instructions.now)
        at }
{
    steps::step(instructions.len(), record_at(instructions, at), at)
}

// The rule of a right character on the chain from an entry: the first instruction for it that is no redirect.
pub fn rule_index(instructions: &[Instruction], entry: usize, right: u8) -> Option<usize>
    ensures { result ≡ found
        (rule_index (length instructions.now) (record_at instructions.now) entry right) }
{
    let n = instructions.len();
    let mut at = entry;
    while steps::searches_on(n, record_at(instructions, at), at, right) {
        at = steps::onward(next_instruction(instructions, at));
    }
    steps::rule_at(n, at)
}

// The indices of the whole chain from an entry, in order, then zeros.
pub fn instructions_for_entrypoint(
    instructions: &[Instruction],
    entry: i32,
    out: &mut [u32],
) -> Written
    ensures { WalksRecords instructions.now entry out.old result out.new }
{
    let n = instructions.len();
    let mut walk = steps::begin(n, entry);
    while walk.at < n {
        walk = steps::put(walk, next_instruction(instructions, walk.at), out);
    }
    steps::finish(n, entry, walk.count, out)
}
