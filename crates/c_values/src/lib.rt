// What every call for a host in C does with the answer of the port's own function: it tells the number, 0 or that of a
// refusal (R214), and the values in a lent list of u64 (R215); and it zeroes each list that was written, where the
// number refuses (R252).
#![tactic(auto)]

ghost use Rattle.lang.specs.Answers.{written_reply};
ghost use Rattle.c_values.specs.Telling.{TellsHost};

use lang::Written;
use words::slices::zero_all;

pub mod lists;

// A count, or the number of a refusal: the count stands in a list that has a place for it.
pub fn tell(written: Written, values: &mut [u64]) -> u32
    ensures { TellsHost (written_reply written) values.old result values.new }
{
    zero_all(values);
    match written {
        Written::Refused(n) => n,
        Written::Count(n) => {
            if values.len() == 0 {
                return 15;
            }
            values[0] = n as u64;
            0
        }
    }
}
