// The value of a property that is a byte (R453; PLtoTF 50 to 56).
#![tactic(auto)]

ghost use Rattle.std.specs.Prelude.{◌≡◌, ◌≤◌, length, drop};
ghost use Rattle.property_lists.specs.Values.{byte_value, Scans};

use bytes::typed_byte;
use pl_blanks::past_blanks;
use pl_bytes::upper_case;
use property_lists::ValueRead;

mod bytes;

// A byte.
pub fn byte_value(text: &[u8], at: usize) -> ValueRead
    ensures { Scans (byte_value (drop at text.now)) text.now at 0 result }
{
    let Some(i) = past_blanks(text, at) else {
        return ValueRead::Refused;
    };
    if text.len() <= i {
        return ValueRead::Refused;
    }
    let t = upper_case(text[i]);
    let Some(j) = past_blanks(text, i + 1) else {
        return ValueRead::Refused;
    };
    typed_byte(text, j, t)
}
