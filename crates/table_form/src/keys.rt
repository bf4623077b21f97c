// The keys of a whole table: what is asked of a table by those who read no ops, crates table_queries and index_fill.
ghost use Rattle.std.specs.Prelude.{◌≡◌};
ghost use Rattle.lang.specs.Every.{every};
ghost use Rattle.captions.specs.Tables.{pair_count};
ghost use Rattle.captions.specs.Form.{key_form};

use crate::key_form;

// Left and right of every pair are in range, and the pairs ascend.
pub fn keys_form(pairs: &[i32]) -> bool
    ensures { result ≡ every (pair_count pairs.now) (key_form pairs.now) }
{
    for k in 0..pairs.len() / 6 {
        if !key_form(pairs, k) {
            return false;
        }
    }
    true
}
