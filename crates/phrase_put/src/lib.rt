// Text put into a lent list of bytes from a place on, one after the other (phrases/specs/Phrases.antt). What passes the
// list's end is left off.
#![tactic(auto)]

ghost use Rattle.std.specs.Prelude.{◌≡◌, [], ◌∷◌, ◌++◌, take};
ghost use Rattle.phrases.specs.Phrases.{PutsText, decimal_text, is_printed};
ghost use Rattle.phrases.specs.Phrases.{paren_text, code_text, char_text};

// One byte. Answers the place after it.
fn put_byte(out: &mut [u8], at: usize, b: u8) -> usize
    ensures { PutsText out.old at (b ∷ []) result out.new }
{
    if at < out.len() {
        out[at] = b;
        return at + 1;
    }
    out.len()
}

// A text. Answers the place after it.
pub fn put_text(out: &mut [u8], at: usize, text: &[u8]) -> usize
    ensures { PutsText out.old at text.now result out.new }
{
    let mut next = at.min(out.len());
    for b in text {
        next = put_byte(out, next, *b);
    }
    next
}

// A number in decimal. Answers the place after it.
pub fn put_decimal(out: &mut [u8], at: usize, n: u32) -> usize
    ensures { PutsText out.old at (decimal_text n) result out.new }
{
    let mut digits = [0u8; 10];
    let mut first = 9;
    let mut rest = n;
    // The number ends this loop, and not the place of a digit.
    while 10 <= rest {
        digits[first] = 48 + ((rest % 10) as u8);
        rest = rest / 10;
        first -= 1;
    }
    digits[first] = 48 + (rest as u8);
    put_text(out, at, &digits[first..])
}

// A character shows in print.
fn is_printed(c: u32) -> bool
    ensures { result ≡ is_printed c }
{
    if 33 <= c { c <= 126 } else { false }
}

// A code in parentheses.
fn put_paren(out: &mut [u8], at: usize, c: u32) -> usize
    ensures { PutsText out.old at (paren_text c) result out.new }
{
    let number = put_byte(out, at, 40);
    let end = put_decimal(out, number, c);
    put_byte(out, end, 41)
}

// A character as itself where it shows in print, and else its code in parentheses. Answers the place after it.
pub fn put_code(out: &mut [u8], at: usize, c: u32) -> usize
    ensures { PutsText out.old at (code_text c) result out.new }
{
    if is_printed(c) {
        return put_byte(out, at, (c % 256) as u8);
    }
    put_paren(out, at, c)
}

// The same with its code behind it. Answers the place after it.
fn put_char(out: &mut [u8], at: usize, c: u32) -> usize
    ensures { PutsText out.old at (char_text c) result out.new }
{
    if is_printed(c) {
        let blank = put_byte(out, at, (c % 256) as u8);
        let code = put_byte(out, blank, 32);
        return put_paren(out, code, c);
    }
    put_paren(out, at, c)
}

// A text, and then a number in decimal. Answers the place after them.
pub fn put_counted(out: &mut [u8], at: usize, text: &[u8], n: u32) -> usize
    ensures { PutsText out.old at (text.now ++ decimal_text n) result out.new }
{
    let next = put_text(out, at, text);
    put_decimal(out, next, n)
}

// A text, and then a character as itself or by its code. Answers the place after them.
pub fn put_coded(out: &mut [u8], at: usize, text: &[u8], c: u32) -> usize
    ensures { PutsText out.old at (text.now ++ code_text c) result out.new }
{
    let next = put_text(out, at, text);
    put_code(out, next, c)
}

// A text, and then a character with its code. Answers the place after them.
pub fn put_named(out: &mut [u8], at: usize, text: &[u8], c: u32) -> usize
    ensures { PutsText out.old at (text.now ++ char_text c) result out.new }
{
    let next = put_text(out, at, text);
    put_char(out, next, c)
}

// The bytes before a place; all where there are fewer.
pub fn bytes_before(bytes: &[u8], at: usize) -> &[u8]
    ensures { result.now ≡ take at bytes.now }
{
    if bytes.len() < at {
        return bytes;
    }
    &bytes[..at]
}
