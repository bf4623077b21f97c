// Where reading a text stands.
ghost use Rattle.std.specs.Prelude.{◌≡◌};
ghost use Rattle.words.specs.Words.{number_of};
ghost use Rattle.columns.specs.Scanned.{head_numbers};
ghost use Rattle.text_scan.specs.Standing.{heads_of};

use columns::TextHeads;
use words::number_of;

// The place of the next line; the numbers of D, R and L, as words (that of -1 where R or L is absent), and whether R
// and L were read; how many numbers of instructions, kerns and entries.
#[derive(Clone, Copy)]
pub(crate) struct TextProgress {
    pub(crate) at: usize,
    pub(crate) design: u32,
    pub(crate) boundary: u32,
    pub(crate) left: u32,
    pub(crate) bounded: bool,
    pub(crate) entered: bool,
    pub(crate) instructions: usize,
    pub(crate) kerns: usize,
    pub(crate) entries: usize,
}

// After a line: where the next one stands, or 16.
#[derive(Clone, Copy)]
pub(crate) enum NextLine {
    At(TextProgress),
    Unreadable,
}

// What a text says beside its lists, at its end.
pub(crate) fn heads_of(p: TextProgress, letters: u32) -> TextHeads
    ensures { head_numbers result ≡ heads_of p (number_of letters) }
{
    TextHeads {
        design: number_of(p.design),
        boundary: number_of(p.boundary),
        left: number_of(p.left),
        instructions: p.instructions,
        kerns: p.kerns,
        entries: p.entries,
        letters: number_of(letters),
    }
}
