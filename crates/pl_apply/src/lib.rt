// A property applied to what was read (PLtoTF 82 to 85, 94 to 102). File `state` has each kind of property.
#![tactic(auto)]

ghost use Rattle.std.specs.Prelude.{◌≡◌, List, ◌+◌, ◌-◌, ◌*◌, ◌/◌, ◌%◌, ◌≤◌, leb, ℤ};
ghost use Rattle.property_lists.specs.Properties.{least_bytes};
ghost use Rattle.property_lists.specs.ListReading.{ListRead, applied};
ghost use Rattle.pl_apply.specs.Standing.{Stands, Follows};

use pl_progress::{bounded, least_bytes, table_closed, table_opened};
use property_lists::{Progress, Property};
use state::{label, put_step, skip, stop};

mod state;

// Four numbers for each of so many steps and the bytes of a property are a size.
fn is_size(p: Property, steps: usize) -> bool
    ensures { result ≡ leb steps ((18446744073709551615 - least_bytes p) / 4) }
{
    steps <= (18446744073709551615 - least_bytes(p)) / 4
}

// The operand of a ligature.
fn operand_of(op: u32, inserted: u32) -> u32
    ensures { (result ≡ 256 * (op % 128) + inserted % 256) × (result ≤ 65535) }
{
    256 * (op % 128) + inserted % 256
}

// What was read, with a property more, of a text that has four bytes for each step before it.
pub fn applied(
    p: Property,
    s: Progress,
    instructions: &mut [i32],
    labels: &mut [i32],
) -> Option<Progress>
    ensures { 4 * s.steps + least_bytes p ≤ 18446744073709551615 → (z : List ℤ) (l : ListRead) →
        Stands z l s instructions.old labels.old →
        Follows z (applied p l) result instructions.new labels.new }
{
    if !is_size(p, s.steps) {
        return None;
    }
    match p {
        Property::Comment => Some(s),
        Property::Boundary(c) => bounded(c, s),
        Property::Table => table_opened(s),
        Property::Label(c) => label(c, s, labels),
        Property::Stop => stop(s, instructions),
        Property::Skip(n) => skip(n, s, instructions),
        Property::Ligature(op, right, inserted) => put_step(
            right,
            2,
            operand_of(op, inserted),
            s,
            instructions,
        ),
        Property::Kern(right, bits) => put_step(right, 0, bits, s, instructions),
        Property::Closed => table_closed(s),
        Property::Ended => None,
    }
}
