// The column text for a host: a text in, the reply in bytes out (R211). Crate `text_shared` reads the text and
// shares its kern values, and `text_font_reply` answers for the font and the word that it says.
#![tactic(auto)]

ghost use Rattle.std.specs.Prelude.{◌≡◌, length};
ghost use Rattle.columns.specs.Ligcols.{number_of_text, bytes_of_text, AnswersText};
ghost use Rattle.columns.specs.Texts.{read_text};
ghost use Rattle.text_font_reply.specs.Answering.{AnswersBytes};

use lang::Written;
use text_font_reply::answer_font;
use text_lists::{entry_list, instruction_list, kern_list, letter_list, letters_in};
use text_shared::read_shared;
use words::number_of;
use words::slices::zero_all;

// A text read, and then answered.
fn answer(text: &[u8], reply: &mut [u8]) -> Written
    ensures { AnswersBytes (number_of_text (read_text text.now) (length reply.old))
        (bytes_of_text (read_text text.now)) reply.old result reply.new }
{
    let mut instructions = instruction_list();
    let mut kerns = kern_list();
    let mut entries = entry_list();
    let mut word = letter_list();
    let Some(heads) = read_shared(text, &mut instructions, &mut kerns, &mut entries, &mut word)
    else {
        zero_all(reply);
        return Written::Refused(16);
    };
    let i = heads.instructions;
    let k = heads.kerns;
    let e = heads.entries;
    let letters = heads.letters;
    let n = letters_in(letters);
    answer_font(
        &instructions[..i],
        &kerns[..k],
        &entries[..e],
        heads.boundary,
        heads.left,
        heads.design,
        letters,
        &word[..n],
        reply,
    )
}

// A text and its reply: the reply's length, or minus the number, with zeros after the reply and everywhere on a
// refusal.
#[unsafe(no_mangle)]
pub extern "C" fn ligcols(text: &[u8], reply: &mut [u8]) -> i32
    ensures { AnswersText text.now reply.old result reply.new }
{
    match answer(text, reply) {
        Written::Count(n) => n as i32,
        Written::Refused(n) => number_of(4294967295 - (n - 1)),
    }
}
