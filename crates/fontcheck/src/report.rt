// What a font file is read as, and the words for it.
use crate::font::{Font, Tables};
use crate::line::Line;
use crate::loops::put_loops;
use crate::refusals::Refusal;
use font_check::check_file;
use font_room::{
    entry_room, instruction_room, kern_room, loop_room, lost_room, op_room, pair_room, work_room,
};

// How many loops a font has, and the first of them.
#[derive(Clone, Copy)]
pub(crate) struct Loops {
    pub(crate) count: usize,
    pub(crate) left: u32,
    pub(crate) right: u32,
}

impl Loops {
    // The loops of a list, two numbers each.
    fn of(loops: &[i32]) -> Option<Loops> {
        if loops.len() < 2 {
            return None;
        }
        Some(Loops {
            count: loops.len() / 2,
            left: loops[0].cast_unsigned(),
            right: loops[1].cast_unsigned(),
        })
    }
}

// The loops of a font, where it has one, or why its file is refused.
pub(crate) type Verdict = Result<Option<Loops>, Refusal>;

// A count as it is printed.
pub(crate) fn small(n: usize) -> u32 {
    u32::try_from(n).unwrap_or(u32::MAX)
}

// How many instructions, pairs and kerns a font has.
fn put_counts(line: &mut Line, font: &Font) {
    line.counted(b"no loop; ", small(font.program.instructions.len() / 4));
    line.counted(b" instructions, ", small(font.pairs));
    line.counted(b" pairs, ", small(font.program.kerns.len()));
    line.text(b" kerns");
}

// The characters whose entry leads nowhere.
fn put_lost(rt: &(impl Print + Eprint), line: &mut Line, lost: &[i32]) {
    for c in lost {
        line.make_room(rt);
        line.named(b"; entry of ", c.cast_unsigned());
        line.text(b" leads nowhere");
    }
}

// The words for a font. Answers its loops.
fn put_font(rt: &(impl Print + Eprint), line: &mut Line, font: &Font) -> Option<Loops> {
    let found = Loops::of(font.loops);
    match found {
        Some(_) => put_loops(rt, line, &font.program, font.loops),
        None => put_counts(line, font),
    }
    put_lost(rt, line, font.lost);
    found
}

// What a font file is read as, and the words for it but for those of a refusal.
pub(crate) fn report_font(rt: &(impl Print + Eprint), file: &[u8], line: &mut Line) -> Verdict {
    let mut instructions = instruction_room();
    let mut kerns = kern_room();
    let mut entries = entry_room();
    let mut lost = lost_room();
    let mut pairs = pair_room();
    let mut ops = op_room();
    let mut loops = loop_room();
    let mut work = work_room();
    let checked = check_file(
        file,
        &mut instructions,
        &mut kerns,
        &mut entries,
        &mut lost,
        &mut pairs,
        &mut ops,
        &mut loops,
        &mut work,
    );
    let tables = Tables {
        instructions: &instructions,
        kerns: &kerns,
        entries: &entries,
        lost: &lost,
        loops: &loops,
    };
    let font = tables.font(checked, file)?;
    Ok(put_font(rt, line, &font))
}

// The words for a refusal, where the verdict is one.
pub(crate) fn put_refusal(line: &mut Line, verdict: Verdict) {
    if let Err(refusal) = verdict {
        refusal.put(line);
    }
}
