// Lists, and their fronts.
ghost use Rattle.std.specs.Prelude.{◌≡◌, length};

// Room for the longest file, with zeros behind it.
pub(crate) fn bytes() -> [u8; 135168]
    ensures { 135168 ≡ length result }
{
    [0; 135168]
}

// Room for the instructions of any font and one more, or for its kerns.
pub(crate) fn numbers() -> [i32; 131072]
    ensures { 131072 ≡ length result }
{
    [0; 131072]
}

// Room for its entries.
pub(crate) fn entries() -> [i32; 512]
    ensures { 512 ≡ length result }
{
    [0; 512]
}

// The first numbers, or all where there are fewer; and so of records of two and of four numbers.
pub(crate) fn first_numbers(numbers: &[i32], n: usize) -> &[i32] {
    if numbers.len() < n {
        return numbers;
    }
    &numbers[0..n]
}

pub(crate) fn first_twos(numbers: &[i32], n: usize) -> &[i32] {
    if numbers.len() / 2 < n {
        return numbers;
    }
    &numbers[0..2 * n]
}

pub(crate) fn first_fours(numbers: &[i32], n: usize) -> &[i32] {
    if numbers.len() / 4 < n {
        return numbers;
    }
    &numbers[0..4 * n]
}
