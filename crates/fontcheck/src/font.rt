// A font that was checked.
use crate::refusals::Refusal;
use font_checks::Checked;
use font_room::parts::{fours, ones, twos};
use read_step::one_step;
use readings::OneStep;

// What a font says of two characters side by side.
#[derive(Clone, Copy)]
pub(crate) struct Program<'a> {
    pub(crate) instructions: &'a [i32],
    pub(crate) kerns: &'a [i32],
    pub(crate) entries: &'a [i32],
    pub(crate) left_entry: i32,
    pub(crate) design: i32,
}

impl<'a> Program<'a> {
    // One step of the first `count` items.
    pub(crate) fn step(&self, items: &mut [i32], count: usize, cursor: usize) -> OneStep {
        one_step(
            self.instructions,
            self.kerns,
            self.entries,
            self.left_entry,
            self.design,
            items,
            count,
            cursor,
        )
    }
}

// A font, the characters whose entry leads nowhere, how many pairs have a rule, and its loops, two numbers each.
#[derive(Clone, Copy)]
pub(crate) struct Font<'a> {
    pub(crate) program: Program<'a>,
    pub(crate) lost: &'a [i32],
    pub(crate) pairs: usize,
    pub(crate) loops: &'a [i32],
}

// The lists that checking writes and the words are taken from.
#[derive(Clone, Copy)]
pub(crate) struct Tables<'a> {
    pub(crate) instructions: &'a [i32],
    pub(crate) kerns: &'a [i32],
    pub(crate) entries: &'a [i32],
    pub(crate) lost: &'a [i32],
    pub(crate) loops: &'a [i32],
}

impl<'a> Tables<'a> {
    // The font in the front of the lists, as checking a file answered it.
    pub(crate) fn font(&self, checked: Checked, file: &[u8]) -> Result<Font<'a>, Refusal> {
        match checked {
            Checked::Font(n, k, e, m, _, left_entry, design, pairs, _, l) => Ok(Font {
                program: Program {
                    instructions: fours(self.instructions, n),
                    kerns: ones(self.kerns, k),
                    entries: twos(self.entries, e),
                    left_entry,
                    design,
                },
                lost: ones(self.lost, m),
                pairs,
                loops: twos(self.loops, l),
            }),
            Checked::Refused(number) => Err(Refusal::of_number(number, file)),
        }
    }
}
