// Chains: which instruction is a pair's rule, and what it does. After `build_node_to_program_start_map` of
// ligkern/compiler.rs (lines 113 to 148), and `instructions_for_entrypoint` of ligkern/lang.rs (lines 667 to 676 and
// 1005 to 1026).
#![tactic(auto)]

ghost use Rattle.std.specs.Prelude.{◌≡◌, ◌≤◌, length};
ghost use Rattle.lang.specs.Records.{count, instruction_at};
ghost use Rattle.words.specs.Lists.{Appending};
ghost use Rattle.program_chain.specs.Chains.{step_at, is_rule_for, rule_index_of, found, redirected, kern_of, acts_as};
ghost use Rattle.program_chain.specs.Chains.{chain_of, walk_refusal, WalksChain};

use entry_targets::is_redirect;
use lang::Written;
use lang::instruction::{field_at, instruction_at};
use lang::operation::{Operation, lig_kern_operation_from_bytes};
use program_checks::{program_refusal, range_refusal};
use tfm::FixWord;

// The instruction at index `at` of a walk, and where the walk goes on.
// Past the last instruction there is neither.
pub fn next_instruction(instructions: &[i32], at: usize) -> Option<(usize, usize)>
    ensures { result ≡ step_at (count instructions.now)
        (instruction_at instructions.now) at }
{
    let n = instructions.len() / 4;
    if n <= at {
        return None;
    }
    let word = field_at(instructions, at, 0);
    if word < 2147483648 {
        Some((at, at + 1 + ((word % 256) as usize)))
    } else {
        Some((at, n))
    }
}

// The instruction at index i can be the rule of a right character: it is no redirect, and has that character.
fn is_rule_for(instructions: &[i32], i: usize, right: u8) -> bool
    ensures { result ≡ is_rule_for right (instruction_at instructions.now i) }
{
    if is_redirect(instructions, i) {
        return false;
    }
    field_at(instructions, i, 1) % 256 == (right as u32)
}

// The rule of a right character on the chain from an entry: the first instruction for it that is no redirect.
pub fn rule_index(instructions: &[i32], entry: usize, right: u8) -> Option<usize>
    ensures { result ≡ found (rule_index_of instructions.now entry right) }
{
    let mut at = entry;
    loop {
        let Some((i, on)) = next_instruction(instructions, at) else {
            return None;
        };
        if is_rule_for(instructions, i, right) {
            return Some(i);
        }
        at = on;
    }
}

// A redirect would act by its target's two bytes; no rule is one.
fn redirect(operation: Operation) -> Operation
    ensures { result ≡ redirected operation }
{
    match operation {
        Operation::EntrypointRedirect(target, _) => lig_kern_operation_from_bytes(
            (target / 256) as u8,
            (target % 256) as u8,
        ),
        other => other,
    }
}

// A kern index is the kern there, and past the list a kern of zero.
fn kern_of(kerns: &[i32], operation: Operation) -> Operation
    ensures { result ≡ kern_of kerns.now operation }
{
    match operation {
        Operation::KernAtIndex(index) => {
            let i = index as usize;
            if i < kerns.len() {
                let k = kerns[i];
                Operation::Kern(FixWord(k))
            } else {
                Operation::Kern(FixWord::ZERO)
            }
        }
        other => other,
    }
}

// What the instruction at index i does where it is a pair's rule.
pub fn operation_at(instructions: &[i32], kerns: &[i32], i: usize) -> Operation
    ensures { result ≡ acts_as kerns.now (instruction_at instructions.now i).operation }
{
    let instruction = instruction_at(instructions, i);
    let operation = instruction.operation;
    kern_of(kerns, redirect(operation))
}

// How many instructions the chain from an entry has.
fn chain_length(instructions: &[i32], entry: usize) -> usize
    ensures { result ≡ length (chain_of instructions.now entry) }
{
    let mut n: usize = 0;
    let mut at = entry;
    loop {
        let Some((_, on)) = next_instruction(instructions, at) else {
            return n;
        };
        n += 1;
        at = on;
    }
}

// 1 and 2 of the program, 4 of the entry, 15 where the chain is longer than the room for it.
fn walk_refusal(instructions: &[i32], entry: i32, room: usize) -> u32
    ensures { result ≡ walk_refusal instructions.now entry room }
{
    let program = program_refusal(instructions);
    if program != 0 {
        return program;
    }
    let range = range_refusal(65535, entry);
    if range != 0 {
        return range;
    }
    let start = words::word_of(entry) as usize;
    if chain_length(instructions, start) <= room {
        0
    } else {
        15
    }
}

// The indices of the chain from an entry, at the front of a list that has room for them. Answers how many.
fn write_chain(instructions: &[i32], entry: usize, out: &mut [u32]) -> usize
    requires { (count instructions.now ≤ 32767)
        × (length (chain_of instructions.now entry) ≤ length out.old) }
    ensures { (result ≡ length (chain_of instructions.now entry))
        × Appending (chain_of instructions.now entry) out.old out.new }
{
    let mut n: usize = 0;
    let mut at = entry;
    loop {
        let Some((i, on)) = next_instruction(instructions, at) else {
            return n;
        };
        out[n] = i as u32;
        n += 1;
        at = on;
    }
}

// The indices of the whole chain from an entry, in order, then zeros.
pub fn instructions_for_entrypoint(instructions: &[i32], entry: i32, out: &mut [u32]) -> Written
    ensures { WalksChain instructions.now entry out.old result out.new }
{
    words::slices::zero_all(out);
    let refused = walk_refusal(instructions, entry, out.len());
    if refused != 0 {
        return Written::Refused(refused);
    }
    let start = words::word_of(entry) as usize;
    Written::Count(write_chain(instructions, start, out))
}
