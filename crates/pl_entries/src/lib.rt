// The entries of the characters that have a label, ascending (R458).
#![tactic(auto)]

ghost use Rattle.std.specs.Prelude.{◌≡◌, cond, ◌+◌, ◌<◌, ◌≤◌, pos, length, get_or, set};
ghost use Rattle.property_lists.specs.ListReading.{has_label, label_entries};
ghost use Rattle.pl_apply.specs.Standing.{overlay};

use pl_progress::has_label;
use words::i32s::{put_word, word_at};

// One of them goes to a place of a list; answered is the place after it.
fn put_label_entry(labels: &[i32], c: usize, n: usize, entries: &mut [i32]) -> usize
    requires { (c < 256) × (n ≤ 512) }
    ensures { (entries.new ≡ cond (has_label c labels.now)
        (set (set entries.old n (pos c)) (n + 1) (get_or labels.now c (pos 0)))
        entries.old) × (result ≡ cond (has_label c labels.now) (n + 2) n) }
{
    if !has_label(labels, c) {
        return n;
    }
    put_word(entries, n, c as u32);
    put_word(entries, n + 1, word_at(labels, c));
    n + 2
}

// They go to a list, ascending, and how many numbers they are is answered. What is past the list's end is counted
// alone.
pub fn put_label_entries(labels: &[i32], entries: &mut [i32]) -> usize
    ensures { (entries.new ≡ overlay (label_entries labels.now 256) entries.old) ×
        (result ≡ length (label_entries labels.now 256)) }
{
    let mut n = 0;
    for c in 0..256 {
        n = put_label_entry(labels, c, n, entries);
    }
    n
}
