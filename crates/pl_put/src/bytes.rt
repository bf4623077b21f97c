// Bytes put into a lent list from a place on.
ghost use Rattle.std.specs.Prelude.{[], ◌∷◌, replicate};
ghost use Rattle.property_lists.specs.Putting.{PutsCounted};

// One byte. Answers the place after it.
pub fn put_byte(out: &mut [u8], at: usize, b: u8) -> usize
    ensures { PutsCounted out.old at (b ∷ []) result out.new }
{
    if at < out.len() {
        out[at] = b;
        return at + 1;
    }
    out.len() + 1
}

// A byte n times. Answers the place after it.
pub fn put_repeated(out: &mut [u8], at: usize, b: u8, n: u32) -> usize
    ensures { PutsCounted out.old at (replicate n b) result out.new }
{
    let mut next = at.min(out.len() + 1);
    for _ in 0..n {
        next = put_byte(out, next, b);
    }
    next
}

// A text. Answers the place after it.
pub fn put_bytes(out: &mut [u8], at: usize, text: &[u8]) -> usize
    ensures { PutsCounted out.old at text.now result out.new }
{
    let mut next = at.min(out.len() + 1);
    for b in text {
        next = put_byte(out, next, *b);
    }
    next
}
