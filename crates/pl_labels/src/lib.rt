// A character, a label of a LIGTABLE list and the BOUNDARYCHAR list, put into a lent list of bytes from a place on, as
// TFtoPL writes them (property_lists/specs/Displays.antt). What passes the end is left off, and the place behind the
// end is answered.
#![tactic(auto)]

ghost use Rattle.words.specs.Words.{number_of};
ghost use Rattle.property_lists.specs.Putting.{PutsCounted};
ghost use Rattle.property_lists.specs.Displays.{leading_octal, octal_char, label_line, boundary_label_line};
ghost use Rattle.property_lists.specs.Displays.{boundary_line};

use pl_put::bytes::{put_byte, put_bytes};

// The last octal digit of a number, and nothing where the number is 0.
fn put_leading(out: &mut [u8], at: usize, n: u32) -> usize
    ensures { PutsCounted out.old at (leading_octal n) result out.new }
{
    if n == 0 {
        return at.min(out.len() + 1);
    }
    put_byte(out, at, 48 + ((n % 8) as u8))
}

// A character in octal, a blank, O and a blank before it.
pub fn put_char(out: &mut [u8], at: usize, c: u32) -> usize
    ensures { PutsCounted out.old at (octal_char c) result out.new }
{
    let first = put_bytes(out, at, b" O ");
    let second = put_leading(out, first, c / 64);
    let last = put_leading(out, second, c / 8);
    put_byte(out, last, 48 + ((c % 8) as u8))
}

// The label of a character.
pub fn put_label(out: &mut [u8], at: usize, c: u32) -> usize
    ensures { PutsCounted out.old at (label_line c) result out.new }
{
    let first = put_bytes(out, at, b"   (LABEL");
    let end = put_char(out, first, c);
    put_bytes(out, end, b")\n")
}

// The label of the left boundary.
pub fn put_boundary_label(out: &mut [u8], at: usize) -> usize
    ensures { PutsCounted out.old at boundary_label_line result out.new }
{
    put_bytes(out, at, b"   (LABEL BOUNDARYCHAR)\n")
}

// The boundary character, by its 32 bits; nothing where there is none.
pub fn put_boundary(out: &mut [u8], at: usize, boundary: u32) -> usize
    ensures { PutsCounted out.old at (boundary_line (number_of boundary)) result out.new }
{
    if 2147483648 <= boundary {
        return at.min(out.len() + 1);
    }
    let first = put_bytes(out, at, b"(BOUNDARYCHAR");
    let end = put_char(out, first, boundary);
    put_bytes(out, end, b")\n")
}
