// The refusals before any removal (R486), the lowest that holds.
#![tactic(auto)]

ghost use Rattle.std.specs.Prelude.{◌≡◌, []};
ghost use Rattle.lang.specs.Answers.{room_refusal};
ghost use Rattle.lang.specs.Checks.{lower};
ghost use Rattle.fonts.specs.Compiled.{compiled_reply};
ghost use Rattle.captions.specs.Begin.{begin_refusal};
ghost use Rattle.removals.specs.Removed.{size_number};
ghost use Rattle.removals.specs.Search.{loop_number};

use caption_run::begin::begin;
use captions::{Begun, RunOptions};
use fonts::Compiled;
use program_checks::lower_of;
use program_limits::room_refusal;
use removals::FontNumbers;
use tfm::asked_refusal;

// 28 for compile's 15 where it was lent no room for a loop; else its own number, and 0 where it took the font.
fn loop_number(compiled: Compiled) -> u32
    ensures { result ≡ loop_number (compiled_reply compiled).number }
{
    match compiled {
        Compiled::Tables(_, _, _) => 0,
        Compiled::Refused(n) => { if n == 15 { 28 } else { n } }
    }
}

// 4, 6 and 20 of the word and the options: what begin refuses over an empty table.
fn word_number(boundary: i32, word: &[u32], options: RunOptions) -> u32
    ensures { result ≡ begin_refusal [] [] boundary word.now options }
{
    let no_pairs = [0i32; 1];
    let no_ops = [0i32; 1];
    match begin(&no_pairs[..0], &no_ops[..0], boundary, word, options) {
        Begun::Refused(n) => n,
        Begun::Run(_) => 0,
    }
}

// The lowest of compile's number, the word's, 15 where so many numbers do not fit, and the size's.
pub fn blame_number(
    compiled: Compiled,
    numbers: FontNumbers,
    word: &[u32],
    options: RunOptions,
    needed: usize,
    room: usize,
) -> u32
    ensures { result ≡ lower (loop_number (compiled_reply compiled).number)
        (lower (begin_refusal [] [] numbers.boundary word.now options)
        (lower (room_refusal needed room) (size_number numbers))) }
{
    let of_font = loop_number(compiled);
    let of_word = word_number(numbers.boundary, word, options);
    let of_room = room_refusal(needed, room);
    let of_size = asked_refusal(numbers.design_size, numbers.size, numbers.magnification);
    lower_of(of_font, lower_of(of_word, lower_of(of_room, of_size)))
}
