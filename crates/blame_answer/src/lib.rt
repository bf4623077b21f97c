// What one removal answers (R485).
#![tactic(auto)]

ghost use Rattle.std.specs.Prelude.{◌≡◌};
ghost use Rattle.removals.specs.Search.{removal_answer};

use removals::Blamed;

// What compile's number and the items say of removal i.
pub fn removal_answer(i: usize, number: u32, same: bool) -> Blamed
    ensures { result ≡ removal_answer i number same }
{
    if number == 15 {
        return Blamed::At(i);
    }
    if number != 0 {
        return Blamed::Refused(number);
    }
    if same { Blamed::Nothing } else { Blamed::At(i) }
}
