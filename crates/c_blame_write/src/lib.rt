// What is told a host in C of a blamed instruction: two values in a list, or a number.
#![tactic(auto)]

ghost use Rattle.std.specs.Prelude.{[], ◌∷◌, pos};
ghost use Rattle.lang.specs.Answers.{reply_of};
ghost use Rattle.removals.specs.declared.Blamed.TheVariants as blamed;
ghost use Rattle.removals.specs.Search.{blamed_reply};
ghost use Rattle.c_blame_write.specs.Told.{TellsBlamed};

use program_checks::lower_of;
use program_limits::room_refusal;
use removals::Blamed;
use words::slices::zero_all;

// Two values at the front of a list, with zeros after them; 15 where it has no room for two.
fn tell_two(found: u64, index: usize, values: &mut [u64]) -> u32
    ensures { TellsBlamed (reply_of 0 (pos found ∷ pos index ∷ [])) values.old result
        values.new }
{
    zero_all(values);
    if values.len() < 2 {
        return 15;
    }
    values[0] = found;
    values[1] = index as u64;
    0
}

// A number, or the lower 15 where two values have no room; zeros in the list.
fn tell_number(number: u32, values: &mut [u64]) -> u32
    ensures { TellsBlamed (blamed_reply (blamed.Refused number)) values.old result
        values.new }
{
    zero_all(values);
    lower_of(number, room_refusal(2, values.len()))
}

// 1 and the instruction's index, or 0 and 0; or a number.
pub fn tell_blamed(answer: Blamed, values: &mut [u64]) -> u32
    ensures { TellsBlamed (blamed_reply answer) values.old result values.new }
{
    match answer {
        Blamed::At(i) => tell_two(1, i, values),
        Blamed::Nothing => tell_two(0, 0, values),
        Blamed::Refused(n) => tell_number(n, values),
    }
}
