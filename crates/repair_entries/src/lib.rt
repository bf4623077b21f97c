// TFtoPL 67 and 69: the entries of a font that is repaired, after the first part of `validate_and_fix` of
// ligkern/lang.rs (lines 702 to 720). An entry that does not unpack goes, with a warning; a redirect by which one
// unpacks is passed over.
#![tactic(auto)]

ghost use Rattle.std.specs.Prelude.{◌≡◌, List, ℕ, ◌/◌, ◌<◌, ◌≤◌, leb, length};
ghost use Rattle.std.proofs.lemmas.List.Edits.{sets};
ghost use Rattle.std.specs.Int.Signed.{non_neg};
ghost use Rattle.words.specs.Words.{word_of};
ghost use Rattle.lang.specs.Every.{both};
ghost use Rattle.lang.specs.Records.{count};
ghost use Rattle.repairs.specs.Damaged.{Damaged, unpacked_entries, repaired_passthrough};
ghost use Rattle.repairs.specs.Warnings.{entry_warnings};
ghost use Rattle.repairs.specs.Pushed.{Pushed};
ghost use Rattle.repair_entries.specs.Entering.{Lends, Placed, entry_numbers, passthrough_bits, redirect_passed};
ghost use Rattle.repair_entries.specs.Entering.{PassesFrom, EntersFrom, Enters};

use entry_targets::{entry_refusal, is_redirect, stands_for};
use repair_warnings::push_if;
use repairs::Entered;

// One entry after n others, where it unpacks, from the bits of its character and of the packed entry. Answers how many
// there are then.
fn put_entry(instructions: &[i32], c: u32, entry: u32, unpacked: &mut [i32], n: usize) -> usize
    requires { n < 9223372036854775807 }
    ensures { Placed unpacked.old n (entry_numbers instructions.now c entry)
        unpacked.new result }
{
    if entry_refusal(instructions, entry as usize) != 0 {
        return n;
    }
    words::i32s::put_word(unpacked, 2 * n, c);
    words::i32s::put_word(
        unpacked,
        2 * n + 1,
        stands_for(instructions, entry as usize) as u32,
    );
    n + 1
}

// The entries that unpack, unpacked. Answers how many they are.
fn put_entries(instructions: &[i32], entries: &[i32], unpacked: &mut [i32]) -> usize
    requires { count instructions.now ≤ 32767 }
    ensures { (d : Damaged) → Lends d instructions.now entries.now →
        Placed unpacked.old 0 (unpacked_entries d) unpacked.new result }
{
    let mut n = 0;
    for k in 0..entries.len() / 2 {
        let c = words::i32s::word_at(entries, 2 * k);
        let entry = words::i32s::word_at(entries, 2 * k + 1);
        n = put_entry(instructions, c, entry, unpacked, n);
    }
    n
}

// Passthrough of n instructions, as 0 and 1.
fn put_passthrough(passthrough: &[u8], n: usize, through: &mut [u8])
    ensures { through.new ≡ sets through.old 0
        (passthrough_bits passthrough.now n) }
{
    for i in 0..n {
        let mut bit = 1;
        if words::slices::item_at(passthrough, i) == 0 {
            bit = 0;
        }
        words::slices::put_item(through, i, bit);
    }
}

// A redirect by which an entry unpacks is passed over.
fn pass_redirect(instructions: &[i32], entry: usize, through: &mut [u8])
    ensures { through.new ≡ redirect_passed instructions.now entry
        through.old }
{
    if entry_refusal(instructions, entry) != 0 {
        return;
    }
    if is_redirect(instructions, entry) {
        words::slices::put_item(through, entry, 1);
    }
}

// The same of every entry.
fn pass_redirects(instructions: &[i32], entries: &[i32], through: &mut [u8])
    ensures { (d : Damaged) (t : List ℕ) →
        PassesFrom d t instructions.now entries.now through.old →
        through.new ≡ sets t 0 (repaired_passthrough d) }
{
    for k in 0..entries.len() / 2 {
        let entry = words::i32s::word_at(entries, 2 * k + 1) as usize;
        pass_redirect(instructions, entry, through);
    }
}

// TFtoPL 69: the left entry is past the end.
fn left_goes(instructions: &[i32], left_entry: i32) -> bool
    ensures { result ≡ both (non_neg left_entry)
        (leb (count instructions.now) (word_of left_entry)) }
{
    let entry = words::word_of(left_entry);
    if 2147483648 <= entry {
        return false;
    }
    instructions.len() / 4 <= (entry as usize)
}

// After n warnings, one for each entry that does not unpack. Answers how many there are then.
fn warn_entries(instructions: &[i32], entries: &[i32], warnings: &mut [i32], n: usize) -> usize
    requires { (n ≤ 1) × (length entries.now / 2 ≤ 256) }
    ensures { (d : Damaged) → Lends d instructions.now entries.now →
        Pushed warnings.old n (entry_warnings d (length entries.now / 2))
        warnings.new result }
{
    let mut count = n;
    for k in 0..entries.len() / 2 {
        let c = words::i32s::word_at(entries, 2 * k);
        let entry = words::i32s::word_at(entries, 2 * k + 1) as usize;
        let goes = entry_refusal(instructions, entry) != 0;
        count = push_if(goes, warnings, count, 2, c, 0, 0);
    }
    count
}

// At most 32,767 instructions and 256 entries.
fn is_enterable(instructions: usize, entries: usize) -> bool
    ensures { result ≡ both (leb instructions 32767) (leb entries 256) }
{
    instructions <= 32767 && entries <= 256
}

// The entries that unpack, unpacked; passthrough, as 0 and 1, set at the redirects by which one does; and the warnings
// of the left entry (1) and of the entries that do not (2). Nothing is done to a font of more than 32,767 instructions
// or 256 entries, and both counts are 0.
pub fn unpack_entries(
    instructions: &[i32],
    entries: &[i32],
    left_entry: i32,
    passthrough: &[u8],
    unpacked: &mut [i32],
    through: &mut [u8],
    warnings: &mut [i32],
) -> Entered
    ensures { (d : Damaged) →
        EntersFrom d instructions.now entries.now left_entry passthrough.now
        →
        Enters d unpacked.old through.old warnings.old result unpacked.new
        through.new warnings.new }
{
    if !is_enterable(instructions.len() / 4, entries.len() / 2) {
        return Entered {
            entries: 0,
            warnings: 0,
        };
    }
    let n = put_entries(instructions, entries, unpacked);
    put_passthrough(passthrough, instructions.len() / 4, through);
    pass_redirects(instructions, entries, through);
    let left = push_if(left_goes(instructions, left_entry), warnings, 0, 1, 0, 0, 0);
    let count = warn_entries(instructions, entries, warnings, left);
    Entered {
        entries: n,
        warnings: count,
    }
}
