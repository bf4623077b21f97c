// The number of a text that is written anew (R465, R466), from what it says once its kern values are shared.
#![tactic(auto)]

ghost use Rattle.std.specs.Prelude.{◌≡◌};
ghost use Rattle.text_convert_refusal.specs.Judging.{said_refusal, anew_refusal};

use columns::TextHeads;
use compile::font_refusal;
use program_checks::lower_of;
use text_font_reply::signs_refusal;

// What is wrong with a text's font and with the signs of its letters, the lower number.
pub fn said_refusal(
    heads: TextHeads,
    instructions: &[i32],
    kerns: &[i32],
    entries: &[i32],
    word: &[u32],
) -> u32
    ensures { result ≡ said_refusal heads instructions.now kerns.now entries.now
        word.now }
{
    let of_font = font_refusal(
        instructions,
        kerns,
        entries,
        heads.boundary,
        heads.left,
        heads.design,
    );
    lower_of(of_font, signs_refusal(word))
}

// The number of a text with so many kerns that becomes n bytes: 16 of its limits before all, then what is wrong with
// its font and with the signs of its letters, then 15, then what is wrong with its letters.
pub fn convert_refusal(kerns: usize, n: usize, bad: u32, letters: u32, room: usize) -> u32
    ensures { result ≡ anew_refusal kerns n bad letters room }
{
    if 512 < kerns || 65536 < n {
        return 16;
    }
    if bad != 0 {
        return bad;
    }
    if room < n {
        return 15;
    }
    letters
}
