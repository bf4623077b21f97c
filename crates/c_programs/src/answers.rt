// Answers of other kinds as a count or the number of a refusal: the same number and values (R285). A yes is 1 and a no
// 0.
ghost use Rattle.std.specs.Prelude.{◌≡◌};
ghost use Rattle.lang.specs.Answers.{written_reply};
ghost use Rattle.entry_unpack.specs.Unpacking.{unpacked_reply, seven_bit_reply};

use entry_unpack::{SevenBit, Unpacked};
use lang::Written;

pub(crate) fn entry_of(answer: Unpacked) -> Written
    ensures { written_reply result ≡ unpacked_reply answer }
{
    match answer {
        Unpacked::Entry(e) => Written::Count(e),
        Unpacked::Direct => Written::Refused(8),
        Unpacked::Indirect => Written::Refused(9),
        Unpacked::Refused(n) => Written::Refused(n),
    }
}

pub(crate) fn safety_of(answer: SevenBit) -> Written
    ensures { written_reply result ≡ seven_bit_reply answer }
{
    match answer {
        SevenBit::Refused(n) => Written::Refused(n),
        SevenBit::Safe(safe) => {
            if safe {
                Written::Count(1)
            } else {
                Written::Count(0)
            }
        }
    }
}
