// Rows of the work buffer of compiling: one number read or stored, and the row of a pair by bisection. specs/Rows.antt
// of crate `compiling` says what a row holds.
#![tactic(auto)]

ghost use Rattle.std.specs.Prelude.{◌≡◌, ◌+◌, ◌*◌, set};
ghost use Rattle.compiling.specs.Rows.{at, row_key, search_row, found_row};

// Number f of row k; 0 past the numbers.
pub fn get(work: &[u32], k: usize, f: u8) -> u32
    ensures { result ≡ at work.now k f }
{
    if work.len() / 16 < k {
        return 0;
    }
    words::slices::item_at(work, 16 * k + (f as usize))
}

// Number f of row k becomes v; past the numbers nothing is done.
pub fn put(work: &mut [u32], k: usize, f: u8, v: u32)
    ensures { work.new ≡ set work.old (16 * k + f) v }
{
    if k <= work.len() / 16 {
        words::slices::put_item(work, 16 * k + (f as usize), v);
    }
}

// The place of row k's pair in the order of rows.
fn key(work: &[u32], k: usize) -> u64
    ensures { result ≡ row_key work.now k }
{
    let left = get(work, k, 0) as u64;
    let right = get(work, k, 1) as u64;
    256 * left + right
}

// The row of the pair of a left (0 the boundary, else 1 + character) and a right character among the first n rows, by
// bisection, or nothing. Where these ascend it is the row of the pair.
pub fn find(work: &[u32], n: usize, left: u32, right: u32) -> Option<usize>
    ensures { result ≡ found_row (search_row work.now n left right) }
{
    let wanted = 256 * (left as u64) + (right as u64);
    let mut lo = 0;
    let mut hi = n;
    while lo < hi {
        let mid = lo + (hi - lo) / 2;
        if key(work, mid) < wanted {
            lo = mid + 1;
        } else {
            hi = mid;
        }
    }
    if lo < n {
        if key(work, lo) == wanted {
            return Some(lo);
        }
    }
    None
}
