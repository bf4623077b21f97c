// An item as seven numbers of a list: 1, and the six of a T line.
ghost use Rattle.std.specs.Prelude.{◌≡◌, true, ◌≤◌, length};
ghost use Rattle.std.proofs.lemmas.List.Edits.{sets};
ghost use Rattle.captions.specs.Replies.{answer_reply};
ghost use Rattle.word_items.specs.ItemLists.{Small};
ghost use Rattle.c_steps.specs.Step.{item_numbers, is_char_item, told_item};

use captions::Answer;
use word_items::{is_item, put_item};
use word_plain_letters::put_six;
use words::i32s::put_word;

// The number of a refusal, else 0.
pub fn refusal_of(answer: Answer) -> u32
    ensures { result ≡ (answer_reply answer).number }
{
    match answer {
        Answer::Char(_, _) => 0,
        Answer::Ligature(_, _, _, _, _) => 0,
        Answer::Kern(_) => 0,
        Answer::End => 0,
        Answer::Refused(n) => n,
    }
}

// 1 and the numbers of an item at the front, if there is room for them; the end and a refusal have none.
pub fn tell(item: &mut [i32], answer: Answer)
    ensures { item.new ≡ told_item item.old answer }
{
    if is_item(answer) {
        put_word(item, 0, 1);
        put_item(item, 1, answer);
    }
}

// The same of a character as it stands, on the path of a letter.
pub(crate) fn tell_character(item: &mut [i32], answer: Answer)
    requires { Small answer × (7 ≤ length item.old) × (is_char_item answer ≡ true) }
    ensures { item.new ≡ sets item.old 0 (item_numbers answer) }
{
    match answer {
        Answer::Char(c, start) => {
            put_word(item, 0, 1);
            put_six(item, 1, 0, c, start as u32, 1, 0, 0)
        }
        Answer::Ligature(_, _, _, _, _) => {}
        Answer::Kern(_) => {}
        Answer::End => {}
        Answer::Refused(_) => {}
    }
}
