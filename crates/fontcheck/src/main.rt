// The program: font files (TFM) by their names, and for each a line: no loop; LOOP, and the pairs that never end; or
// refused, and why. What it says of a file is what `check_file` answers of its bytes, which is proved (crate
// font_checks). Before any file it reads two fonts of its own, one that loops and one that does not, and stops where
// either is read wrong.
#![tactic(auto)]

use file_font::file_length;
use file_load::{args, load_file};
use font_room::byte_room;
use line::{Line, write_bytes};
use phrase_put::bytes_before;
use refusals::{Refusal, bytes_read};
use report::{Verdict, put_refusal, report_font, small};
use std::rt::{Env, Files};

mod font;
mod line;
mod loops;
mod refusals;
mod report;
mod test_fonts;

// How many files have no loop, have one, and were refused.
#[derive(Clone, Copy, Default)]
struct Tally {
    free: u32,
    looping: u32,
    refused: u32,
}

impl Tally {
    // A file more.
    fn count(&mut self, verdict: Verdict) {
        match verdict {
            Ok(None) => self.free = self.free.saturating_add(1),
            Ok(Some(_)) => self.looping = self.looping.saturating_add(1),
            Err(_) => self.refused = self.refused.saturating_add(1),
        }
    }

    // The last line, of so many files.
    fn print(self, rt: &(impl Print + Eprint), files: usize) {
        let mut line = Line::new();
        line.number(small(files));
        line.counted(b" files: ", self.free);
        line.counted(b" without a loop, ", self.looping);
        line.counted(b" with a loop, ", self.refused);
        line.end(rt, b" refused\n");
    }
}

// What a file is read as, and the words for it but for those of a refusal.
fn report_file(rt: &(impl Files + Print + Eprint), name: &[u8], line: &mut Line) -> Verdict {
    let mut bytes = byte_room();
    let n = bytes_read(load_file(rt, name, &mut bytes))?;
    let read = bytes_before(&bytes, n);
    report_font(rt, bytes_before(read, file_length(read)), line)
}

// The name of argument i, or its number where it has no room, and what its file is read as.
fn report_argument(rt: &(impl Env + Files + Print + Eprint), i: usize, line: &mut Line) -> Verdict {
    let mut room = [0u8; 4096];
    let Ok(n) = rt.arg(i, &mut room) else {
        line.counted(b"argument ", small(i));
        line.text(b": ");
        return Err(Refusal::LongName);
    };
    let name = &room[..n];
    line.text(name);
    line.text(b": ");
    report_file(rt, name, line)
}

// The line of argument i.
fn check_argument(rt: &(impl Env + Files + Print + Eprint), i: usize) -> Verdict {
    let mut line = Line::new();
    let verdict = report_argument(rt, i, &mut line);
    put_refusal(&mut line, verdict);
    line.end(rt, b"\n");
    verdict
}

// A line for each argument.
fn check_all(rt: &(impl Env + Files + Print + Eprint), count: usize) -> Tally {
    let mut tally = Tally::default();
    for i in 1..count {
        tally.count(check_argument(rt, i));
    }
    tally
}

fn main(rt: HostRuntime) {
    let count = args::count(&rt);
    if count < 2 {
        write_bytes(
            &rt,
            b"use: fontcheck FILE...  says of each font file (TFM) whether it has a loop\n",
        );
        return;
    }
    if !test_fonts::are_right(&rt) {
        write_bytes(&rt, b"fontcheck: its answers are not to be believed\n");
        return;
    }
    check_all(&rt, count).print(&rt, count - 1);
}
