// A font of 65,536 pairs in one chain of waits, compiled; and the same chain closed to a cycle. A line for each: how
// many pairs, ops and loops there are. It is what compiling is timed on (docs/PROOFS.md): the search goes as deep as a
// font of characters allows.
#![tactic(auto)]

ghost use Rattle.std.specs.Prelude.{◌≡◌, length};

use compile::compile;
use fonts::Compiled;

mod font;

// Four numbers an instruction.
fn program() -> [i32; 3064]
    ensures { 3064 ≡ length result }
{
    [0; 3064]
}

// Two numbers an entry.
fn entry_list() -> [i32; 512]
    ensures { 512 ≡ length result }
{
    [0; 512]
}

// Six numbers a pair.
fn table() -> [i32; 393216]
    ensures { 393216 ≡ length result }
{
    [0; 393216]
}

// One op, and one loop: the chain has no more.
fn one() -> [i32; 2]
    ensures { 2 ≡ length result }
{
    [0; 2]
}

// Sixteen numbers a pair with a rule.
fn rows() -> [u32; 1048576]
    ensures { 1048576 ≡ length result }
{
    [0; 1048576]
}

// The three counts, or a refusal.
fn print(rt: &impl Print, answer: Compiled) {
    match answer {
        Compiled::Tables(pairs, ops, loops) => {
            let _ = rt.print(pairs);
            let _ = rt.write_all(b" ");
            let _ = rt.print(ops);
            let _ = rt.write_all(b" ");
            let _ = rt.print(loops);
        }
        Compiled::Refused(n) => {
            let _ = rt.write_all(b"? ");
            let _ = rt.print(n);
        }
    }
    let _ = rt.write_all(b"\n");
}

// Compiles the font of a program, and writes what is answered.
fn report(rt: &impl Print, program: &[i32], entries: &[i32], pairs: &mut [i32], work: &mut [u32]) {
    let mut ops = one();
    let mut loops = one();
    let answer = compile(
        program,
        &program[..0],
        entries,
        -1,
        -1,
        10485760,
        0,
        0,
        pairs,
        &mut ops,
        &mut loops,
        work,
    );
    print(rt, answer);
}

fn main(rt: HostRuntime) {
    let mut chain = program();
    let mut entries = entry_list();
    let mut pairs = table();
    let mut work = rows();
    font::put_entries(&mut entries);
    font::put_instructions(&mut chain);
    font::open(&mut chain);
    report(&rt, &chain, &entries, &mut pairs, &mut work);
    font::put_instructions(&mut chain);
    report(&rt, &chain, &entries, &mut pairs, &mut work);
}
