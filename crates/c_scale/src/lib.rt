// One kern scaled (R48 to R54, R350 to R356) for a host in C: integers in, the number of a refusal out (R214), and the
// scaled kern in a list that is lent for it.
#![tactic(auto)]

ghost use Rattle.tfm.specs.Scaled.{scaled_at, scaled_reply};
ghost use Rattle.c_scale.specs.Scaling.{TellsScaled};

use program_checks::lower_of;
use program_limits::room_refusal;
use tfm::{FixWord, ScalingError};
use words::slices::zero_all;

// The scaled kern, or a number: 5 and 13 before 15 of the list, and that before 19.
fn tell_scaled(answer: Result<i32, ScalingError>, scaled: &mut [i32]) -> u32
    ensures { TellsScaled (scaled_reply answer) scaled.old result scaled.new }
{
    zero_all(scaled);
    let room = room_refusal(1, scaled.len());
    match answer {
        Err(ScalingError::SizeOutOfRange) => lower_of(19, room),
        Err(error) => error.number(),
        Ok(v) => {
            if room != 0 {
                return room;
            }
            scaled[0] = v;
            0
        }
    }
}

// A kern in scaled points, at the design size or, where one is not zero, at a size or by a magnification.
#[unsafe(no_mangle)]
pub extern "C" fn ligkern_to_scaled(
    kern: i32,
    design_size: i32,
    size: i32,
    magnification: i32,
    scaled: &mut [i32],
) -> u32
    ensures { TellsScaled (scaled_reply (scaled_at kern design_size size magnification))
        scaled.old result scaled.new }
{
    let answer = FixWord(kern).to_scaled(FixWord(design_size), size, magnification);
    tell_scaled(answer, scaled)
}
