// A word set whole, and how many items it has in a list of one number.
ghost use Rattle.std.specs.Prelude.{length};
ghost use Rattle.word_set.specs.Setting.{set_reply};
ghost use Rattle.c_captions.specs.Whole.{SetsCaption};
ghost use Rattle.c_states.specs.States.{options_of};

use c_values::lists::keep_list;
use c_values::tell;
use captions::RunOptions;
use program_checks::lower_of;
use program_limits::room_refusal;
use word_set::set_word;

// The items of a word up to its end, six numbers each, with zeros after them, and their count. set_word's numbers; 15
// where the count has no room comes before 20.
#[unsafe(no_mangle)]
pub extern "C" fn ligkern_set_word(
    pairs: &[i32],
    ops: &[i32],
    boundary: i32,
    word: &[u32],
    disable_left_boundary: bool,
    right_boundary_override: i32,
    items: &mut [i32],
    count: &mut [u64],
) -> u32
    ensures { SetsCaption
        (set_reply pairs.now ops.now boundary word.now
        (options_of disable_left_boundary right_boundary_override) (length items.old))
        items.old count.old result items.new count.new }
{
    let options = RunOptions {
        disable_left_boundary: disable_left_boundary,
        right_boundary_override: right_boundary_override,
    };
    let room = room_refusal(1, count.len());
    let written = set_word(pairs, ops, boundary, word, options, items);
    let number = lower_of(tell(written, count), room);
    keep_list(number, items);
    number
}
