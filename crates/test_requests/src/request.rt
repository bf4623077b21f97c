// The numbers of a request: lists, each its length and then its items, and the font at the end. All is total: a part
// that does not fit is empty.
ghost use Rattle.std.specs.Prelude.{◌≡◌, ◌-◌, length, take};
ghost use Rattle.test_requests.specs.Requests.{part_of, after_of, items_of, number_at, kerns_at, entries_at};

// The numbers from one place to another.
pub fn part(numbers: &[i32], from: usize, to: usize) -> &[i32]
    ensures { result.now ≡ part_of numbers.now from to }
{
    if to < from {
        return &numbers[..0];
    }
    if numbers.len() < to {
        return &numbers[..0];
    }
    &numbers[from..to]
}

// The numbers from a place on.
pub fn rest(numbers: &[i32], from: usize) -> &[i32]
    ensures { result.now ≡ part_of numbers.now from (length numbers.now) }
{
    part(numbers, from, numbers.len())
}

// The place after the list whose length stands at `at`, each item `width` numbers; where it does not fit, the end.
pub fn after(numbers: &[i32], at: usize, width: u8) -> usize
    ensures { result ≡ after_of width numbers.now at }
{
    if numbers.len() <= at {
        return numbers.len();
    }
    let size = (width as usize) * (words::i32s::word_at(numbers, at) as usize);
    if numbers.len() - at - 1 < size {
        return numbers.len();
    }
    at + 1 + size
}

// The items of that list.
pub fn items(numbers: &[i32], at: usize, width: u8) -> &[i32]
    ensures { result.now ≡ items_of width numbers.now at }
{
    if numbers.len() <= at {
        return &numbers[..0];
    }
    part(numbers, at + 1, after(numbers, at, width))
}

// The number at place i.
pub fn number_at(numbers: &[i32], i: usize) -> i32
    ensures { result ≡ number_at numbers.now i }
{
    words::number_of(words::i32s::word_at(numbers, i))
}

// The instructions of a font, four numbers each.
pub fn instructions_of(font: &[i32]) -> &[i32]
    ensures { result.now ≡ items_of 4 font.now 0 }
{
    items(font, 0, 4)
}

// Its kerns.
pub fn kerns_of(font: &[i32]) -> &[i32]
    ensures { result.now ≡ items_of 1 font.now (kerns_at font.now) }
{
    items(font, after(font, 0, 4), 1)
}

// Its entries, two numbers each.
pub fn entries_of(font: &[i32]) -> &[i32]
    ensures { result.now ≡ items_of 2 font.now (entries_at font.now) }
{
    items(font, after(font, after(font, 0, 4), 1), 2)
}

// The place that k numbers are left from. The last two numbers of a font are its boundary character, at 2 from the end,
// and its left-boundary entry.
pub fn from_end(numbers: &[i32], k: usize) -> usize
    ensures { result ≡ length numbers.now - k }
{
    numbers.len().saturating_sub(k)
}

// The first n bytes, or all where there are fewer.
pub fn front(bytes: &[u8], n: usize) -> &[u8]
    ensures { result.now ≡ take n bytes.now }
{
    &bytes[..n.min(bytes.len())]
}
