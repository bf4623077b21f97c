// The numbers of committing after those of the passes: 15, where a list is too short, and then 25, where the warnings
// handed over are not those that were found (R404, R405).
#![tactic(auto)]

ghost use Rattle.std.specs.Prelude.{◌≡◌};
ghost use Rattle.repairs.specs.Committing.{starts_with};
ghost use Rattle.repair_commit_refusals.specs.Numbers.{fits_refusal, lower_refusal, warned_count, differ_refusal};
ghost use Rattle.repair_commit_refusals.specs.Numbers.{finish_refusal};

use program_limits::room_refusal;
use repairs::Validated;
use words::i32s::word_at;

// 15: so many numbers and bytes, and as many warnings as are handed over, do not fit.
fn fits_refusal(
    numbers: usize,
    bytes: usize,
    handed: usize,
    fixed: usize,
    through: usize,
    found: usize,
) -> u32
    ensures { result ≡ fits_refusal numbers bytes handed fixed through found }
{
    let of_numbers = room_refusal(numbers, fixed);
    if of_numbers != 0 {
        return of_numbers;
    }
    let of_bytes = room_refusal(bytes, through);
    if of_bytes != 0 {
        return of_bytes;
    }
    room_refusal(handed, found)
}

// The refusal of the passes; else 15.
fn lower_refusal(
    mended: Validated,
    numbers: usize,
    bytes: usize,
    handed: usize,
    fixed: usize,
    through: usize,
    found: usize,
) -> u32
    ensures { result ≡ lower_refusal mended numbers bytes handed fixed through found }
{
    match mended {
        Validated::Refused(number) => number,
        Validated::Fixed(_, _) => fits_refusal(numbers, bytes, handed, fixed, through, found),
    }
}

// How many warnings the passes gave; 0 where they refuse.
fn count_of(mended: Validated) -> usize
    ensures { result ≡ warned_count mended }
{
    match mended {
        Validated::Refused(_) => 0,
        Validated::Fixed(_, count) => count,
    }
}

// The numbers handed over are those at the front of what was found.
fn starts_with(found: &[i32], handed: &[i32]) -> bool
    ensures { result ≡ starts_with found.now handed.now }
{
    for i in 0..handed.len() {
        if word_at(handed, i) != word_at(found, i) {
            return false;
        }
    }
    true
}

// 25, unless four numbers are handed over for each of so many warnings, and they are those that were found.
fn differ_refusal(handed: &[i32], found: &[i32], count: usize) -> u32
    ensures { result ≡ differ_refusal handed.now found.now count }
{
    if handed.len() % 4 != 0 {
        return 25;
    }
    if handed.len() / 4 != count {
        return 25;
    }
    if starts_with(found, handed) { 0 } else { 25 }
}

// The number of committing, once the passes have answered and written what warnings they found: a lower one, else 25.
// The repaired program has so many numbers and bytes.
pub fn commit_refusal(
    mended: Validated,
    numbers: usize,
    bytes: usize,
    handed: &[i32],
    fixed: usize,
    through: usize,
    found: &[i32],
) -> u32
    ensures { result ≡ finish_refusal mended numbers bytes handed.now fixed through
        found.now }
{
    let lower = lower_refusal(
        mended,
        numbers,
        bytes,
        handed.len(),
        fixed,
        through,
        found.len(),
    );
    let differ = differ_refusal(handed, found, count_of(mended));
    if lower != 0 { lower } else { differ }
}
