// The six lists that are lent as work, each left zero.
#![tactic(auto)]

ghost use Rattle.removals.specs.Search.{WorkZeroed};

use words::slices::zero_all;

// Every number of the six lists is 0.
pub fn zero_work(
    pairs: &mut [i32],
    ops: &mut [i32],
    pairs_without: &mut [i32],
    ops_without: &mut [i32],
    edited: &mut [i32],
    work: &mut [u32],
)
    ensures { WorkZeroed pairs.old ops.old pairs_without.old
        ops_without.old edited.old work.old pairs.new ops.new
        pairs_without.new ops_without.new edited.new work.new }
{
    zero_all(pairs);
    zero_all(ops);
    zero_all(pairs_without);
    zero_all(ops_without);
    zero_all(edited);
    zero_all(work);
}
