// A property list read, each kern as its value (R457, R458; PLtoTF 82 to 85, 94 to 102, 116). File `whole` has all
// properties.
#![tactic(auto)]

ghost use Rattle.std.specs.Prelude.{◌≡◌, ◌*◌, leb};
ghost use Rattle.lang.specs.Checks.{unless, or_else};
ghost use Rattle.lang.specs.Answers.{room_refusal};
ghost use Rattle.pl_read.specs.ValueLists.{ReadsValues};

use pl_entries::put_label_entries;
use whole::scan;
use words::i32s::word_at;
use words::number_of;
use words::slices::zero_all;

mod whole;

// What a text says: how many instructions and entries it has, its boundary character and its left entry (-1 for none);
// or the number of its refusal.
#[derive(Clone, Copy)]
pub enum StepsListed {
    Font(usize, usize, i32, i32),
    Refused(u32),
}

// 1 or 15 of a text that was read.
fn list_refusal(steps: usize, entries: usize, room: usize, space: usize) -> u32
    ensures { result ≡ or_else (unless 1 (leb steps 32767)) (or_else (room_refusal (4 * steps) room)
        (room_refusal entries space)) }
{
    if 32767 < steps {
        return 1;
    }
    if room < 4 * steps {
        return 15;
    }
    if space < entries {
        return 15;
    }
    0
}

// What a text says: its steps and its labels, with zeros after them; or 23, 1 or 15, and zeros.
pub fn read_list(text: &[u8], instructions: &mut [i32], entries: &mut [i32]) -> StepsListed
    ensures { ReadsValues text.now instructions.old entries.old result
        instructions.new entries.new }
{
    zero_all(instructions);
    zero_all(entries);
    let mut labels = [-1i32; 257];
    let Some(s) = scan(text, instructions, &mut labels) else {
        zero_all(instructions);
        return StepsListed::Refused(23);
    };
    let n = put_label_entries(&labels, entries);
    let refusal = list_refusal(s.steps, n, instructions.len(), entries.len());
    if refusal != 0 {
        zero_all(instructions);
        zero_all(entries);
        return StepsListed::Refused(refusal);
    }
    StepsListed::Font(
        s.steps,
        n / 2,
        number_of(s.boundary),
        number_of(word_at(&labels, 256)),
    )
}
