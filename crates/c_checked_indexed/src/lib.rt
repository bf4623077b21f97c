// A word set whole by an index over a table that was checked once (R414), and how many items it has in a list of one
// number, for a host in C: slices and integers in, the number of a refusal out (R214; 0 where it is taken). The
// contract is that of c_captions/specs/Whole; what the check is for is index_set_checked/specs/Purpose.
#![tactic(auto)]

ghost use Rattle.std.specs.Prelude.{length};
ghost use Rattle.index_set_checked.specs.Checked.{checked_indexed_reply};
ghost use Rattle.c_states.specs.States.{options_of};
ghost use Rattle.c_captions.specs.Whole.{SetsCaption};

use c_values::lists::keep_list;
use c_values::tell;
use captions::RunOptions;
use index_set_checked::set_checked_word_indexed;
use program_checks::lower_of;
use program_limits::room_refusal;

// The items of a word up to its end by an index over a table that was checked, six numbers each, with zeros after them,
// and their count. set_checked_word_indexed's numbers; 15 where the count has no room comes before 20.
#[unsafe(no_mangle)]
pub extern "C" fn ligkern_set_checked_word_indexed(
    index: &[u64],
    pairs: &[i32],
    ops: &[i32],
    boundary: i32,
    word: &[u32],
    disable_left_boundary: bool,
    right_boundary_override: i32,
    items: &mut [i32],
    count: &mut [u64],
) -> u32
    ensures { SetsCaption
        (checked_indexed_reply index.now pairs.now ops.now boundary
        word.now (options_of disable_left_boundary right_boundary_override)
        (length items.old)) items.old count.old result items.new
        count.new }
{
    let options = RunOptions {
        disable_left_boundary: disable_left_boundary,
        right_boundary_override: right_boundary_override,
    };
    let room = room_refusal(1, count.len());
    let written = set_checked_word_indexed(index, pairs, ops, boundary, word, options, items);
    let number = lower_of(tell(written, count), room);
    keep_list(number, items);
    number
}
