// What goes with a word besides its letters: the boundary character, the options, and its length.
ghost use Rattle.std.specs.Prelude.{◌≡◌};
ghost use Rattle.lang.specs.Checks.{absent_refusal};
ghost use Rattle.captions.specs.Begin.{edges_refusal, word_refusal, override_refusal};

use captions::RunOptions;
use program_checks::{absent_refusal, is_letter};
use words::word_of;

// 4: an override below -1.
fn low_refusal(over: i32) -> u32
    ensures { result ≡ absent_refusal 2147483647 over }
{
    let w = word_of(over);
    if w <= 2147483647 {
        return 0;
    }
    if w == 4294967295 { 0 } else { 4 }
}

// 4: the boundary character outside -1 to 255, or the override below -1.
pub fn edges_refusal(boundary: i32, options: RunOptions) -> u32
    ensures { result ≡ edges_refusal boundary options }
{
    let edge = absent_refusal(255, boundary);
    if edge != 0 {
        return edge;
    }
    low_refusal(options.right_boundary_override)
}

// 20: an override that is no letter; below 0 it is none.
pub fn override_refusal(over: i32) -> u32
    ensures { result ≡ override_refusal over }
{
    let w = word_of(over);
    if 2147483648 <= w {
        return 0;
    }
    if is_letter(w) { 0 } else { 20 }
}

// 6: a word over 65,535.
pub fn word_refusal(word: &[u32]) -> u32
    ensures { result ≡ word_refusal word.now }
{
    if word.len() <= 65535 { 0 } else { 6 }
}
