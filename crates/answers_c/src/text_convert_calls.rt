ghost use Rattle.columns.specs.Converting.{ConvertsText};

// A text without kern values: its length, or minus the number, with zeros after it and everywhere on a refusal.
#[unsafe(no_mangle)]
pub extern "C" fn ligcols_convert(text: &[u8], out: &mut [u8]) -> i32
    ensures { ConvertsText text.now out.old result out.new }
{
    text_convert::ligcols_convert(text, out)
}
