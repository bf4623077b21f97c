// A property list read, its kerns shared (R458, R468): `read_list` of pl_read gives each kern as its value, and
// `unpack_kerns` of program_kerns makes indices of them.
#![tactic(auto)]

ghost use Rattle.std.specs.Prelude.{◌≡◌, length};
ghost use Rattle.property_lists.specs.ListReading.{ReadsList};

use lang::Written;
use pl_read::{StepsListed, read_list};
use program_kerns::unpack_kerns;
use property_lists::Listed;
use words::slices::zero_all;

// Four places for each step that can be given back.
fn step_places() -> [i32; 131068]
    ensures { length result ≡ 131068 }
{
    [0i32; 131068]
}

// What a text says: its steps, its kerns, each value once, and its labels, with zeros after them; or 23, 1 or 15, and
// zeros.
pub fn from_pl_source_code(
    text: &[u8],
    instructions: &mut [i32],
    kerns: &mut [i32],
    entries: &mut [i32],
) -> Listed
    ensures { ReadsList text.now instructions.old kerns.old
        entries.old result instructions.new kerns.new entries.new }
{
    let mut steps = step_places();
    let read = read_list(text, &mut steps, entries);
    match read {
        StepsListed::Refused(number) => {
            zero_all(instructions);
            zero_all(kerns);
            Listed::Refused(number)
        }
        StepsListed::Font(n, e, boundary, left) => {
            let shared = unpack_kerns(&steps[..4 * n], instructions, kerns);
            match shared {
                Written::Refused(number) => {
                    zero_all(entries);
                    Listed::Refused(number)
                }
                Written::Count(k) => Listed::Font(n, k, e, boundary, left),
            }
        }
    }
}
