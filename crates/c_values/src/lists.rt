// A list that a call wrote, of any type of numbers.
ghost use Rattle.std.specs.Prelude.{◌≡◌};
ghost use Rattle.c_values.specs.Telling.{kept};

use words::slices::{Number, zero_all};

// Zeros where a number refuses; else the list as it is.
#[tactic(auto, using(crate::proofs::Telling::zeroed))]
pub fn keep_list<T: Number>(number: u32, out: &mut [T])
    ensures { out.new ≡ kept number T.ZERO out.old }
{
    if number != 0 {
        zero_all(out);
    }
}
