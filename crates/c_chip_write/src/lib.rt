// What a command changes of a chip that stands in a list of 91 numbers, for a host in C: only that is written, and the
// block that shows it.
#![tactic(auto)]

ghost use Rattle.std.specs.Prelude.{◌≡◌, [], ◌∷◌, ◌++◌, ◌-◌, ◌≤◌, length, get_or, drop, replicate};
ghost use Rattle.std.proofs.lemmas.List.Edits.{sets};
ghost use Rattle.c_states.specs.States.{numbers_of};
ghost use Rattle.c_chips.specs.ChipLists.{shown_numbers, chip_numbers, chip_at, chip_with};
ghost use Rattle.c_chip_write.specs.Changes.{can_show, ShowsChanges};

use c_states::states::{bit, put_state};
use captions::{Answer, State};
use chip_block::show;
use words::slices::zero_all;
use words::word_of;

// Seven numbers from place 2 on.
fn put_seven(
    list: &mut [u64],
    ready: u64,
    kind: u64,
    value: u32,
    start: usize,
    n: usize,
    left: u64,
    right: u64,
)
    requires { 91 ≤ length list.old }
    ensures { list.new ≡ sets list.old 2
        (ready ∷ kind ∷ value ∷ start ∷ n ∷ left ∷ right ∷ []) }
{
    list[2] = ready;
    list[3] = kind;
    list[4] = value as u64;
    list[5] = start as u64;
    list[6] = n as u64;
    list[7] = left;
    list[8] = right;
}

// The numbers of an item.
fn put_shown(list: &mut [u64], item: Answer)
    requires { 91 ≤ length list.old }
    ensures { list.new ≡ sets list.old 2 (shown_numbers item) }
{
    match item {
        Answer::Char(c, start) => put_seven(list, 1, 0, c, start, 1, 0, 0),
        Answer::Ligature(c, start, n, left, right) => {
            put_seven(list, 1, 1, c, start, n, bit(left), bit(right))
        }
        Answer::Kern(k) => put_seven(list, 1, 2, word_of(k), 0, 0, 0, 0),
        Answer::End => put_seven(list, 0, 0, 0, 0, 0, 0, 0),
        Answer::Refused(_) => put_seven(list, 0, 0, 0, 0, 0, 0, 0),
    }
}

// The nine numbers of a state from place 9 on.
fn put_run(list: &mut [u64], state: State)
    requires { 91 ≤ length list.old }
    ensures { list.new ≡ sets list.old 9 (numbers_of state) }
{
    put_state(&mut list[9..], state);
}

// Zeros in the places of the letters, from one of them on.
fn put_zeros(list: &mut [u64], from: usize)
    requires { (91 ≤ length list.old) × (from ≤ 82) }
    ensures { list.new ≡ sets list.old from (replicate (82 - from) 0) }
{
    zero_all(&mut list[from..82]);
}

// Whether a word is open, the item and the run, in the place of those that stand there; and no letters past the word.
fn put_changes(list: &mut [u64], opened: bool, item: Answer, state: State)
    requires { (91 ≤ length list.old) × (get_or list.old 1 0 ≤ 64) }
    ensures { list.new ≡ chip_numbers (chip_with opened item state (chip_at list.old))
        ++ drop 91 list.old }
{
    let n = list[1] as usize;
    list[0] = bit(opened);
    put_shown(list, item);
    put_run(list, state);
    put_zeros(list, 18 + n);
}

// Room for a chip, no more than 64 letters, a caller of 0 to 7, and its count of 32 bits.
fn can_show(list: &[u64]) -> bool
    ensures { result ≡ can_show list.now }
{
    if list.len() < 91 {
        return false;
    }
    if 64 < list[1] {
        return false;
    }
    let caller = list[90];
    if 7 < caller {
        return false;
    }
    list[82 + (caller as usize)] <= 4294967295
}

// Whether a word is open, the item and the run of the chip that stands in a list become these, and the block shows it.
// The letters of the word, the counts and the caller are not written again. A list that is no chip's stays.
pub fn show_changes(block: &mut [u8], list: &mut [u64], opened: bool, item: Answer, state: State)
    ensures { ShowsChanges opened item state block.old list.old block.new
        list.new }
{
    if !can_show(list) {
        return;
    }
    let caller = list[90] as usize;
    let count = list[82 + caller] as u32;
    put_changes(list, opened, item, state);
    show(block, opened, count, item);
}
