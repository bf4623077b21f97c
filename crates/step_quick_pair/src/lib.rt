// Kern pairs (R417): entries that are the left as it stands and one kern, and whose last is the right as it stands.
// Both items of such a pair are given in the loop over letters, and the right goes on as the next left.
#![tactic(auto)]

ghost use Rattle.std.specs.Prelude.{◌≡◌};
ghost use Rattle.step_quick_pair.specs.KernPairs.{kern_op};

use step_quick_op::is_ready;
use words::i32s::word_at;

// One more than the place of the first op of entry k, where that is a kern pair; 0 of every other, and past the pairs.
pub fn kern_op(pairs: &[i32], ops: &[i32], k: usize) -> usize
    ensures { result ≡ kern_op pairs.now ops.now k }
{
    if pairs.len() / 6 <= k {
        return 0;
    }
    if !is_ready(pairs, ops, k) {
        return 0;
    }
    if word_at(pairs, 6 * k + 5) != 2 {
        return 0;
    }
    if word_at(pairs, 6 * k + 3) == 1 {
        return 0;
    }
    let first = word_at(pairs, 6 * k + 4) as usize;
    if word_at(ops, 2 * (first + 1)) != 2 {
        return 0;
    }
    first + 1
}
