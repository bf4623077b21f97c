// A whole number in decimal.
ghost use Rattle.points.specs.Printing.{leading_digit, whole_text};
ghost use Rattle.property_lists.specs.Putting.{PutsCounted};

use crate::bytes::put_byte;

// The last digit of a number, and nothing where the number is 0. Answers the place after it.
fn put_leading(out: &mut [u8], at: usize, n: u32) -> usize
    ensures { PutsCounted out.old at (leading_digit n) result out.new }
{
    if n == 0 {
        return at.min(out.len() + 1);
    }
    put_byte(out, at, 48 + ((n % 10) as u8))
}

// A number below 100,000. Answers the place after it.
pub fn put_whole(out: &mut [u8], at: usize, n: u32) -> usize
    ensures { PutsCounted out.old at (whole_text n) result out.new }
{
    let tens = n / 10;
    let hundreds = tens / 10;
    let thousands = hundreds / 10;
    let second = put_leading(out, at, thousands / 10);
    let third = put_leading(out, second, thousands);
    let fourth = put_leading(out, third, hundreds);
    let last = put_leading(out, fourth, tens);
    put_byte(out, last, 48 + ((n % 10) as u8))
}
