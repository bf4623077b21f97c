// How many short words there are, for a host in C. A set of characters is 256 bits: those from 0, 64, 128 and 192 on.
// The number of a refusal comes out (R214; 0 where it is taken), and the values in a list that is lent for them (R215).
#![tactic(auto)]

ghost use Rattle.std.specs.Prelude.{[], ◌∷◌, pos};
ghost use Rattle.lang.specs.Answers.{reply_of};
ghost use Rattle.letter_set.specs.LetterSets.{alphabet_size, word_count};
ghost use Rattle.c_values.specs.Telling.{TellsHost};

use letter_set::{alphabet_size, word_count};
use words::slices::zero_all;

// How many letters a set has, and how many words of at most four of them there are, in `values`. 15 where it has no
// room for both.
#[unsafe(no_mangle)]
pub extern "C" fn ligkern_count_words(
    from_0: u64,
    from_64: u64,
    from_128: u64,
    from_192: u64,
    values: &mut [u64],
) -> u32
    ensures { TellsHost
        (reply_of 0
        (pos (alphabet_size (from_0 ∷ from_64 ∷ from_128 ∷ from_192 ∷ []))
        ∷ pos (word_count (alphabet_size (from_0 ∷ from_64 ∷ from_128 ∷ from_192 ∷ [])))
        ∷ []))
        values.old result values.new }
{
    zero_all(values);
    if values.len() < 2 {
        return 15;
    }
    let letters = [from_0, from_64, from_128, from_192];
    values[0] = alphabet_size(&letters) as u64;
    values[1] = word_count(&letters);
    0
}
