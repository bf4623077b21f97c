// The words for a loop: its pair, the index of the pair's rule, and what stands after each of the first five steps of
// its reading.
use crate::font::Program;
use crate::line::Line;
use crate::report::small;
use lang::entries::{entries_table, entry_at};
use program_chain::rule_index;
use readings::OneStep;

// An item that stands.
#[derive(Clone, Copy)]
enum Item {
    Char(u32),
    Kern,
    Boundary,
}

impl Item {
    // The item that a kind and a value mean.
    fn of(kind: i32, value: i32) -> Item {
        match kind {
            2 => Item::Kern,
            3 => Item::Boundary,
            _ => Item::Char(value.cast_unsigned()),
        }
    }

    // The item after a blank.
    fn put(self, line: &mut Line) {
        match self {
            Item::Char(c) => line.coded(b" ", c),
            Item::Kern => line.text(b" kern"),
            Item::Boundary => line.text(b" boundary"),
        }
    }
}

// The first `count` items of a list.
fn put_items(line: &mut Line, items: &[i32], count: usize) {
    let (records, _) = items.as_chunks::<2>();
    for record in records.iter().take(count) {
        Item::of(record[0], record[1]).put(line);
    }
}

// The left of a loop: a character, or the boundary, and the right, as a list of loops has them.
#[derive(Clone, Copy)]
struct Pair {
    left: u32,
    right: u32,
}

impl Pair {
    fn is_at_boundary(self) -> bool {
        256 <= self.left
    }

    // The place of the left among the entries: its code, or 256 for the boundary.
    fn place(self) -> usize {
        if self.is_at_boundary() {
            256
        } else {
            self.left as usize
        }
    }

    // The index of the instruction that is the rule of the pair.
    fn index(self, program: &Program) -> u32 {
        let table = entries_table(program.entries, program.left_entry);
        let entry = entry_at(&table, self.place()) as usize;
        rule_index(program.instructions, entry, (self.right % 256) as u8).map_or(0, small)
    }

    // Its two items, with room for a reading: it grows by an item a step, to seven of two numbers each.
    fn items(self) -> [i32; 14] {
        let mut items = [0i32; 14];
        items[0] = if self.is_at_boundary() { 3 } else { 0 };
        items[1] = (self.left % 256).cast_signed();
        items[3] = self.right.cast_signed();
        items
    }

    // The pair by its numbers, -1 for the boundary.
    fn put(self, line: &mut Line) {
        if self.is_at_boundary() {
            line.text(b" (-1");
        } else {
            line.counted(b" (", self.left);
        }
        line.counted(b" ", self.right);
    }
}

// What stands after each of the next five steps of two items.
fn put_readings(line: &mut Line, program: &Program, items: &mut [i32]) {
    let mut count = 2;
    let mut cursor = 0;
    for _ in 0..5 {
        let OneStep::Standing(n, moved) = program.step(items, count, cursor) else {
            return;
        };
        line.text(b",");
        put_items(line, items, n);
        count = n;
        cursor = moved;
    }
}

// What stands in front of loop i: the word for it, or what parts it from the one before.
fn put_head(rt: &(impl Print + Eprint), line: &mut Line, i: usize) {
    if i == 0 {
        line.text(b"LOOP at");
    } else {
        line.make_room(rt);
        line.text(b";");
    }
}

// The words for a loop: its pair by its characters and by its numbers, the index of its rule, and its readings.
fn put_loop(line: &mut Line, program: &Program, pair: Pair) {
    let mut items = pair.items();
    put_items(line, &items, 2);
    pair.put(line);
    line.counted(b"), instruction ", pair.index(program));
    line.text(b":");
    put_items(line, &items, 2);
    put_readings(line, program, &mut items);
}

// The words for each loop of a list, two numbers each.
pub(crate) fn put_loops(
    rt: &(impl Print + Eprint),
    line: &mut Line,
    program: &Program,
    loops: &[i32],
) {
    let (pairs, _) = loops.as_chunks::<2>();
    for (i, pair) in pairs.iter().enumerate() {
        put_head(rt, line, i);
        put_loop(
            line,
            program,
            Pair {
                left: pair[0].cast_unsigned(),
                right: pair[1].cast_unsigned(),
            },
        );
    }
}
