// One property (R455; PLtoTF 44, 47, 49, 94 to 102).
#![tactic(auto)]

ghost use Rattle.std.specs.Prelude.{◌≤◌, length, drop};
ghost use Rattle.property_lists.specs.Properties.{property_at, named_from, least_bytes, three_bytes, ReadsProperty};

use kinds::by_code;
use pl_blanks::past_blanks;
use pl_names::name_at;
use property_lists::{Property, PropertyRead, ValueRead};

mod kinds;

// What stands behind a parenthesis.
fn named_from(text: &[u8], at: usize) -> PropertyRead
    requires { at ≤ length text.now }
    ensures { ReadsProperty (named_from (drop at text.now)) text.now at three_bytes result }
{
    let ValueRead::Value(code, n) = name_at(text, at) else {
        return PropertyRead::Refused;
    };
    by_code(text, n, code)
}

// A property, the parenthesis that closes LIGTABLE, or the end of the text.
pub fn property(text: &[u8], at: usize) -> PropertyRead
    ensures { ReadsProperty (property_at (drop at text.now)) text.now at least_bytes result }
{
    let Some(i) = past_blanks(text, at) else {
        return PropertyRead::Refused;
    };
    if text.len() <= i {
        return PropertyRead::Read(Property::Ended, i);
    }
    if text[i] == 41 {
        return PropertyRead::Read(Property::Closed, i + 1);
    }
    if text[i] != 40 {
        return PropertyRead::Refused;
    }
    let Some(j) = past_blanks(text, i + 1) else {
        return PropertyRead::Refused;
    };
    named_from(text, j)
}
