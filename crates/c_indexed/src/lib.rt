// An index and a word set whole by it, for a host in C: slices and integers in, the number of a refusal out (R214; 0
// where it is taken). The contracts are those of index/specs/Index and c_captions/specs/Whole; what an index is for is
// index_set_word/specs/Purpose.
#![tactic(auto)]

ghost use Rattle.std.specs.Prelude.{length};
ghost use Rattle.index.specs.Index.{FillsIndex};
ghost use Rattle.index_set_word.specs.Whole.{indexed_reply};
ghost use Rattle.c_states.specs.States.{options_of};
ghost use Rattle.c_captions.specs.Whole.{SetsCaption};

use c_values::lists::keep_list;
use c_values::tell;
use captions::RunOptions;
use index_fill::fill_index;
use index_set_word::set_word_indexed;
use program_checks::lower_of;
use program_limits::room_refusal;

// The index of a table, 1,285 numbers with zeros after them. 7, 15.
#[unsafe(no_mangle)]
pub extern "C" fn ligkern_fill_index(pairs: &[i32], index: &mut [u64]) -> u32
    ensures { FillsIndex pairs.now index.old result index.new }
{
    fill_index(pairs, index)
}

// The items of a word up to its end, six numbers each, with zeros after them, and their count. set_word_indexed's
// numbers; 15 where the count has no room comes before 20.
#[unsafe(no_mangle)]
pub extern "C" fn ligkern_set_word_indexed(
    index: &[u64],
    pairs: &[i32],
    ops: &[i32],
    boundary: i32,
    word: &[u32],
    disable_left_boundary: bool,
    right_boundary_override: i32,
    items: &mut [i32],
    count: &mut [u64],
) -> u32
    ensures { SetsCaption
        (indexed_reply index.now pairs.now ops.now boundary word.now
        (options_of disable_left_boundary right_boundary_override) (length items.old))
        items.old count.old result items.new count.new }
{
    let options = RunOptions {
        disable_left_boundary: disable_left_boundary,
        right_boundary_override: right_boundary_override,
    };
    let room = room_refusal(1, count.len());
    let written = set_word_indexed(index, pairs, ops, boundary, word, options, items);
    let number = lower_of(tell(written, count), room);
    keep_list(number, items);
    number
}
