// The chain of f, and the rules of two right characters on it: f, and x, for which the font has an instruction that
// this chain skips. Over records and over numbers.
ghost use Rattle.std.specs.Prelude.{◌≡◌, length};
ghost use Rattle.program_chain.specs.Chains.{rule_index, found};
ghost use Rattle.program_records.specs.RecordChains.{record_at, WalksRecords};

use crate::{font, print};
use lang::Written;
use lang::instruction::Instruction;

// The records come by value and are lent as a slice, here and in the next function.
fn chain_of_records(program: [Instruction; 6], entry: i32, out: &mut [u32]) -> Written
    ensures { WalksRecords program entry out.old result out.new }
{
    program_records::instructions_for_entrypoint(&program, entry, out)
}

fn rule_of_records(program: [Instruction; 6], entry: usize, right: u8) -> Option<usize>
    ensures { result ≡ found (rule_index (length program) (record_at program) entry right) }
{
    program_records::rule_index(&program, entry, right)
}

fn over_records(rt: &impl Print, program: [Instruction; 6]) {
    let mut out = [0u32; 6];
    let written = chain_of_records(program, 0, &mut out);
    print::text(rt, b"records:");
    print::chain(rt, written, &out);
    print::rule(rt, 102, rule_of_records(program, 0, 102));
    print::rule(rt, 120, rule_of_records(program, 0, 120));
    print::text(rt, b"\n");
}

fn over_numbers(rt: &impl Print, program: &[i32]) {
    let mut out = [0u32; 6];
    let written = program_chain::instructions_for_entrypoint(program, 0, &mut out);
    print::text(rt, b"numbers:");
    print::chain(rt, written, &out);
    print::rule(rt, 102, program_chain::rule_index(program, 0, 102));
    print::rule(rt, 120, program_chain::rule_index(program, 0, 120));
    print::text(rt, b"\n");
}

pub(crate) fn both(rt: &impl Print) {
    let mut numbers = [0i32; 24];
    font::put_numbers(&mut numbers);
    over_records(rt, font::records());
    over_numbers(rt, &numbers);
}
