// The left and the right of every pair, into a lent list.
ghost use Rattle.std.specs.Prelude.{◌≡◌, ◌++◌, ◌*◌, ◌≤◌, length, drop};
ghost use Rattle.captions.specs.Tables.{pair_count};
ghost use Rattle.captions.specs.Queries.{keys_of, keys_refusal};

use table_form::keys::keys_form;
use table_numbers::number_at;

// 7, or 15 where a list of `room` places is too short for two numbers a pair.
pub(crate) fn keys_refusal(pairs: &[i32], room: usize) -> u32
    ensures { result ≡ keys_refusal pairs.now room }
{
    if pairs.len() % 6 != 0 {
        return 7;
    }
    if !keys_form(pairs) {
        return 7;
    }
    if 2 * (pairs.len() / 6) <= room { 0 } else { 15 }
}

pub(crate) fn write_keys(pairs: &[i32], out: &mut [i32])
    requires { 2 * pair_count pairs.now ≤ length out.old }
    ensures { out.new ≡ keys_of pairs.now
        ++ drop (2 * pair_count pairs.now) out.old }
{
    for j in 0..2 * (pairs.len() / 6) {
        words::i32s::put_word(out, j, number_at(pairs, j / 2, (j % 2) as u8));
    }
}
