// A step of a LIGTABLE list, or what comes after one, put into a lent list of bytes from a place on, as TFtoPL writes
// it (property_lists/specs/Displays.antt). What passes the end is left off, and the place behind the end is answered.
#![tactic(auto)]

ghost use Rattle.std.specs.Prelude.{◌≤◌, ◌<◌};
ghost use Rattle.words.specs.Words.{number_of};
ghost use Rattle.property_lists.specs.Putting.{PutsCounted};
ghost use Rattle.property_lists.specs.Displays.{lig_name, lig_line, krn_line, next_line};

use pl_labels::put_char;
use pl_put::bytes::{put_bytes, put_repeated};
use pl_put::whole::put_whole;
use real_text::put_real;

// LIG with the slashes and arrows of an op byte.
fn put_name(out: &mut [u8], at: usize, op: u32) -> usize
    ensures { PutsCounted out.old at (lig_name op) result out.new }
{
    let first = put_repeated(out, at, 47, op / 2 % 2);
    let second = put_bytes(out, first, b"LIG");
    let third = put_repeated(out, second, 47, op % 2);
    put_repeated(out, third, 62, op / 4)
}

// A ligature step.
pub fn put_lig(out: &mut [u8], at: usize, op: u32, right: u32, inserted: u32) -> usize
    ensures { PutsCounted out.old at (lig_line op right inserted) result out.new }
{
    let name = put_bytes(out, at, b"   (");
    let first = put_name(out, name, op);
    let second = put_char(out, first, right);
    let end = put_char(out, second, inserted);
    put_bytes(out, end, b")\n")
}

// A kern step; the kern is given by its 32 bits.
pub fn put_krn(out: &mut [u8], at: usize, right: u32, kern: u32) -> usize
    ensures { PutsCounted out.old at (krn_line right (number_of kern)) result out.new }
{
    let first = put_bytes(out, at, b"   (KRN");
    let second = put_char(out, first, right);
    let real = put_bytes(out, second, b" R ");
    let end = put_real(out, real, kern);
    put_bytes(out, end, b")\n")
}

// SKIP of a number that is not 0.
fn put_skip(out: &mut [u8], at: usize, n: u32) -> usize
    requires { (1 ≤ n) × (n < 2147483648) }
    ensures { PutsCounted out.old at (next_line (number_of n)) result out.new }
{
    let first = put_bytes(out, at, b"   (SKIP D ");
    let end = put_whole(out, first, n);
    put_bytes(out, end, b")\n")
}

// STOP, SKIP or nothing, by the 32 bits of next.
pub fn put_next(out: &mut [u8], at: usize, next: u32) -> usize
    ensures { PutsCounted out.old at (next_line (number_of next)) result out.new }
{
    if next == 0 {
        return at.min(out.len() + 1);
    }
    if next < 2147483648 {
        return put_skip(out, at, next);
    }
    put_bytes(out, at, b"   (STOP)\n")
}
