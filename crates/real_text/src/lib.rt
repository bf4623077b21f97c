// A kern's text: a sign, the whole part, a point and as few decimals as PLtoTF reads back (TFtoPL 40 to 43). What
// passes a list's end is left off, and the place behind the end is answered.
//   fraction   decimals
#![tactic(auto)]

ghost use Rattle.words.specs.Words.{number_of};
ghost use Rattle.property_lists.specs.Putting.{PutsCounted};
ghost use Rattle.property_lists.specs.RealTexts.{magnitude_text, real_text};

use pl_put::bytes::put_byte;
use pl_put::whole::put_whole;

mod fraction;

// A number of 0 or more, 2 ^ 20 to the unit. Answers the place after it.
fn put_magnitude(out: &mut [u8], at: usize, n: u32) -> usize
    ensures { PutsCounted out.old at (magnitude_text n) result out.new }
{
    let point = put_whole(out, at, n / 1048576);
    let first = put_byte(out, point, 46);
    fraction::put_fraction(out, first, n % 1048576)
}

// The number whose 32 bits are w. Answers the place after it.
pub fn put_real(out: &mut [u8], at: usize, w: u32) -> usize
    ensures { PutsCounted out.old at (real_text (number_of w)) result out.new }
{
    if w < 2147483648 {
        return put_magnitude(out, at, w);
    }
    let first = put_byte(out, at, 45);
    put_magnitude(out, first, 4294967295 - w + 1)
}
