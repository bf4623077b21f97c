// The questions about a table.
ghost use Rattle.std.specs.Prelude.{length, pos};
ghost use Rattle.captions.specs.Queries.{has_reply, keys_of, safe_reply};
ghost use Rattle.c_values.specs.Telling.{TellsHost, Gives};
ghost use Rattle.c_queries.specs.Questions.{pairs_reply};

use crate::answers::reply_of;
use c_values::lists::keep_list;
use c_values::tell;

// Tells 1 where a left (-1 the boundary) and a right (-1 the boundary character) have an entry.
#[unsafe(no_mangle)]
pub extern "C" fn ligkern_has_replacement(
    pairs: &[i32],
    boundary: i32,
    left: i32,
    right: i32,
    values: &mut [u64],
) -> u32
    ensures { TellsHost (has_reply pairs.now boundary left right) values.old result
        values.new }
{
    let found = table_queries::has_replacement(pairs, boundary, left, right);
    tell(reply_of(found), values)
}

// The left and the right of every pair, in order, then zeros. Tells the count of pairs.
#[unsafe(no_mangle)]
pub extern "C" fn ligkern_all_pairs_with_replacements(
    pairs: &[i32],
    out: &mut [i32],
    values: &mut [u64],
) -> u32
    ensures { Gives (pos 0) (pairs_reply pairs.now (length out.old))
        (keys_of pairs.now) out.old values.old result out.new
        values.new }
{
    let written = table_queries::all_pairs_with_replacements(pairs, out);
    let number = tell(written, values);
    keep_list(number, out);
    number
}

// The table's seven-bit test. Tells 1 where any pair of seven-bit characters, the left boundary among them, becomes
// seven-bit characters.
#[unsafe(no_mangle)]
pub extern "C" fn ligkern_table_is_seven_bit_safe(
    pairs: &[i32],
    ops: &[i32],
    values: &mut [u64],
) -> u32
    ensures { TellsHost (safe_reply pairs.now ops.now) values.old result
        values.new }
{
    let tested = table_seven_bit::is_seven_bit_safe(pairs, ops);
    tell(reply_of(tested), values)
}
