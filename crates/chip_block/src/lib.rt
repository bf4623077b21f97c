// The bytes of a chip's block that a taken command writes: the status, the words that the caller ended, and the item
// that is shown. The mask and the rest are left as they are.
#![tactic(auto)]

ghost use Rattle.std.specs.Prelude.{◌≡◌, [], ◌∷◌, not, ◌+◌, ◌≤◌, length};
ghost use Rattle.std.proofs.lemmas.List.Edits.{sets};
ghost use Rattle.captions.specs.Replies.{is_end};
ghost use Rattle.chips.specs.Blocks.{weighed, caller_count, high_first, item_bytes};
ghost use Rattle.chip_block.specs.Showing.{chip_showing, shown_where, interrupt_by, status_by};

use captions::Answer;
use chips::Chip;
use words::slices::item_at;
use words::word_of;

// A flag's weight where it is set, else 0.
fn weight(flag: bool, n: u8) -> u8
    ensures { result ≡ weighed flag n }
{
    if flag { n } else { 0 }
}

// How many words a caller ended; one above 7 has none.
pub fn count_of(chip: Chip, caller: usize) -> u32
    ensures { result ≡ caller_count caller chip }
{
    let counts = chip.counts;
    item_at(&counts, caller)
}

// An item is ready.
pub fn is_ready(item: Answer) -> bool
    ensures { result ≡ not (is_end item) }
{
    match item {
        Answer::Char(_, _) => true,
        Answer::Ligature(_, _, _, _, _) => true,
        Answer::Kern(_) => true,
        Answer::End => false,
        Answer::Refused(_) => true,
    }
}

// An item is ready, or a word open, and the mask does not hide it.
fn interrupts(mask: u8, ready: bool, opened: bool) -> bool
    ensures { result ≡ interrupt_by mask ready opened }
{
    if ready {
        if mask % 2 != 1 {
            return true;
        }
    }
    if opened {
        return mask / 2 % 2 != 1;
    }
    false
}

// Bit 0 item ready, bit 1 word open, bit 2 interrupt.
fn status(mask: u8, ready: bool, opened: bool) -> u8
    ensures { result ≡ status_by mask ready opened }
{
    let interrupt = interrupts(mask, ready, opened);
    weight(ready, 1) + weight(opened, 2) + weight(interrupt, 4)
}

// Four bytes at a place.
fn put_bytes(block: &mut [u8], at: usize, a: u8, b: u8, c: u8, d: u8)
    requires { at + 4 ≤ length block.old }
    ensures { block.new ≡ sets block.old at (a ∷ b ∷ c ∷ d ∷ []) }
{
    block[at] = a;
    block[at + 1] = b;
    block[at + 2] = c;
    block[at + 3] = d;
}

// A number of 32 bits at a place, the highest byte first.
fn put_number(block: &mut [u8], at: usize, n: u32)
    requires { at + 4 ≤ length block.old }
    ensures { block.new ≡ sets block.old at (high_first n) }
{
    let a = (n / 16777216 % 256) as u8;
    let b = (n / 65536 % 256) as u8;
    let c = (n / 256 % 256) as u8;
    put_bytes(block, at, a, b, c, (n % 256) as u8);
}

// Eight bytes at 8: kind, left and right flag, the original's length, and the value.
fn put_item(block: &mut [u8], kind: u8, left: u8, right: u8, n: u8, value: u32)
    requires { 16 ≤ length block.old }
    ensures { block.new ≡ sets block.old 8
        (kind ∷ left ∷ right ∷ n ∷ high_first value) }
{
    put_bytes(block, 8, kind, left, right, n);
    put_number(block, 12, value);
}

// The bytes of an item; zeros for none.
fn show_item(block: &mut [u8], item: Answer)
    requires { 16 ≤ length block.old }
    ensures { block.new ≡ sets block.old 8 (item_bytes item) }
{
    match item {
        Answer::Char(c, _) => put_item(block, 0, 0, 0, 1, c),
        Answer::Ligature(c, _, n, left, right) => {
            put_item(
                block,
                1,
                weight(left, 1),
                weight(right, 1),
                (n % 256) as u8,
                c,
            )
        }
        Answer::Kern(k) => put_item(block, 2, 0, 0, 0, word_of(k)),
        Answer::End => put_item(block, 0, 0, 0, 0, 0),
        Answer::Refused(_) => put_item(block, 0, 0, 0, 0, 0),
    }
}

// The block shows whether a word is open, how many its caller ended, and the item. One under 16 bytes is left as it is.
pub fn show(block: &mut [u8], opened: bool, count: u32, item: Answer)
    ensures { block.new ≡ shown_where block.old (chip_showing opened count item) }
{
    if block.len() < 16 {
        return;
    }
    let ready = is_ready(item);
    block[2] = status(block[3], ready, opened);
    put_number(block, 4, count);
    show_item(block, item);
}
