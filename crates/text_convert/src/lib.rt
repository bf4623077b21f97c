// The converter for a host: a column text in, the same text without kern values out (R464 to R466). Crate `text_scan`
// reads the text, `text_shared` shares its kern values, `text_convert_refusal` has its number, and `text_convert_lines`
// writes its lines anew.
#![tactic(auto)]

ghost use Rattle.std.specs.Prelude.{◌≡◌, length, drop};
ghost use Rattle.captions.specs.Begin.{letters_refusal};
ghost use Rattle.columns.specs.Converting.{converted_text, convert_number, ConvertsText};
ghost use Rattle.columns.specs.Lines.{lines_of};
ghost use Rattle.columns.specs.Texts.{read_text};
ghost use Rattle.text_convert_lines.specs.Anew.{lines_anew};
ghost use Rattle.text_convert_refusal.specs.Judging.{anew_refusal};
ghost use Rattle.text_font_reply.specs.Answering.{AnswersBytes};
ghost use Rattle.text_convert.specs.Lengths.{LengthKnown};

use caption_run::begin::letters_refusal;
use lang::Written;
use text_convert_lines::put_converted;
use text_convert_refusal::{convert_refusal, said_refusal};
use text_lists::{entry_list, instruction_list, kern_list, letter_list, letters_in, line_kerns};
use text_scan::read_text;
use text_shared::share_text;
use words::number_of;
use words::slices::zero_all;

// A text whose first k kerns are its own and whose kern values are shared, written anew; `bad` is the number of its
// font and of the signs of its letters.
fn convert_shared(
    text: &[u8],
    k: usize,
    instructions: &[i32],
    kerns: &[i32],
    bad: u32,
    word: &[u32],
    out: &mut [u8],
) -> Written
    requires { LengthKnown text.now k instructions.now kerns.now }
    ensures { AnswersBytes
        (anew_refusal (length kerns.now)
        (length (lines_anew instructions.now (drop k kerns.now) (lines_of text.now)))
        bad (letters_refusal word.now) (length out.old))
        (lines_anew instructions.now (drop k kerns.now) (lines_of text.now))
        out.old result out.new }
{
    let n = text.len() + 14 * (kerns.len() - k);
    let number = convert_refusal(kerns.len(), n, bad, letters_refusal(word), out.len());
    if number != 0 {
        zero_all(out);
        return Written::Refused(number);
    }
    Written::Count(put_converted(text, instructions, &kerns[k..], out))
}

// A text read, its kern values shared, and written anew.
fn convert(text: &[u8], out: &mut [u8]) -> Written
    ensures { AnswersBytes
        (convert_number (read_text text.now) (converted_text text.now)
        (length out.old)) (converted_text text.now) out.old result
        out.new }
{
    let mut program = instruction_list();
    let mut own = line_kerns();
    let mut all = kern_list();
    let mut entries = entry_list();
    let mut word = letter_list();
    let Some(said) = read_text(text, &mut program, &mut own, &mut entries, &mut word) else {
        zero_all(out);
        return Written::Refused(16);
    };
    let m = share_text(said.instructions, said.kerns, &mut program, &own, &mut all);
    let shared = &program[..said.instructions];
    let kerns = &all[..m];
    let letters = &word[..letters_in(said.letters)];
    let bad = said_refusal(said, shared, kerns, &entries[..said.entries], letters);
    convert_shared(text, said.kerns, shared, kerns, bad, letters, out)
}

// A text without kern values: its length, or minus the number, with zeros after it and everywhere on a refusal.
#[unsafe(no_mangle)]
pub extern "C" fn ligcols_convert(text: &[u8], out: &mut [u8]) -> i32
    ensures { ConvertsText text.now out.old result out.new }
{
    match convert(text, out) {
        Written::Count(n) => n as i32,
        Written::Refused(n) => number_of(4294967295 - (n - 1)),
    }
}
