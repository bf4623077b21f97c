// A yes or a no as a count, or the number of a refusal: the same number and values (R285). A yes is 1 and a no 0.
ghost use Rattle.std.specs.Prelude.{◌≡◌};
ghost use Rattle.lang.specs.Answers.{written_reply};
ghost use Rattle.captions.specs.Replies.{told_reply};

use captions::Told;
use lang::Written;

pub(crate) fn reply_of(answer: Told) -> Written
    ensures { written_reply result ≡ told_reply answer }
{
    match answer {
        Told::Refused(n) => Written::Refused(n),
        Told::Is(yes) => {
            if yes {
                Written::Count(1)
            } else {
                Written::Count(0)
            }
        }
    }
}
