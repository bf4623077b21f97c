// The front of a list of numbers: so many records of one number, two, four or six.
ghost use Rattle.std.specs.Prelude.{◌≡◌, ◌*◌, take};

// The first n numbers; all where there are fewer.
pub fn ones(list: &[i32], n: usize) -> &[i32]
    ensures { result.now ≡ take n list.now }
{
    if list.len() < n {
        return list;
    }
    &list[..n]
}

// The first n records of two numbers; all where there are fewer.
pub fn twos(list: &[i32], n: usize) -> &[i32]
    ensures { result.now ≡ take (2 * n) list.now }
{
    if list.len() / 2 < n {
        return list;
    }
    &list[..2 * n]
}

// The first n records of four numbers; all where there are fewer.
pub fn fours(list: &[i32], n: usize) -> &[i32]
    ensures { result.now ≡ take (4 * n) list.now }
{
    if list.len() / 4 < n {
        return list;
    }
    &list[..4 * n]
}

// The first n records of six numbers; all where there are fewer.
pub fn sixes(list: &[i32], n: usize) -> &[i32]
    ensures { result.now ≡ take (6 * n) list.now }
{
    if list.len() / 6 < n {
        return list;
    }
    &list[..6 * n]
}
