ghost use Rattle.columns.specs.Ligcols.{AnswersText};

// A text and its reply: the reply's length, or minus the number, with zeros after the reply and everywhere on a
// refusal.
#[unsafe(no_mangle)]
pub extern "C" fn ligcols(text: &[u8], reply: &mut [u8]) -> i32
    ensures { AnswersText text.now reply.old result reply.new }
{
    text_answer::ligcols(text, reply)
}
