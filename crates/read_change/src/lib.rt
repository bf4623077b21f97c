// What a rule changes in a list of items: what takes the place of the two at the cursor (TeX 545, 1040). Numbers are
// taken out of the list and put into it by `places`.
#![tactic(auto)]

ghost use Rattle.std.specs.Prelude.{◌≡◌, List, ℤ};
ghost use Rattle.readings.specs.Lists.{replaced_by};
ghost use Rattle.read_rule.specs.Meant.{meant};
ghost use Rattle.read_change.specs.Changes.{retains_left, retains_right, passes};
ghost use Rattle.read_change.specs.Changes.{change_of, Retains, finished_by, ChangesAs};

use lang::operation::PostLigOperation;
use read_rule::PairRule;

pub mod places;

// What takes the place of two items: whether the left and the right stay, 1 or 0, how many items the cursor passes, and
// the kind and the bits of the value of what is inserted between them; kind 0 for nothing.
#[derive(Clone, Copy)]
pub struct Change {
    pub left: usize,
    pub right: usize,
    pub advance: usize,
    pub kind: u32,
    pub value: u32,
}

// 1 where an operation retains the left.
fn keeps_left(operation: PostLigOperation) -> usize
    ensures { result ≡ retains_left operation }
{
    match operation {
        PostLigOperation::RetainNeitherMoveToInserted => 0,
        PostLigOperation::RetainRightMoveToInserted => 0,
        PostLigOperation::RetainLeftMoveNowhere => 1,
        PostLigOperation::RetainBothMoveNowhere => 1,
        PostLigOperation::RetainRightMoveToRight => 0,
        PostLigOperation::RetainLeftMoveToInserted => 1,
        PostLigOperation::RetainBothMoveToInserted => 1,
        PostLigOperation::RetainBothMoveToRight => 1,
    }
}

// 1 where an operation retains the right.
fn keeps_right(operation: PostLigOperation) -> usize
    ensures { result ≡ retains_right operation }
{
    match operation {
        PostLigOperation::RetainNeitherMoveToInserted => 0,
        PostLigOperation::RetainRightMoveToInserted => 1,
        PostLigOperation::RetainLeftMoveNowhere => 0,
        PostLigOperation::RetainBothMoveNowhere => 1,
        PostLigOperation::RetainRightMoveToRight => 1,
        PostLigOperation::RetainLeftMoveToInserted => 0,
        PostLigOperation::RetainBothMoveToInserted => 1,
        PostLigOperation::RetainBothMoveToRight => 1,
    }
}

// How many items the cursor passes.
fn passes(operation: PostLigOperation) -> usize
    ensures { result ≡ passes operation }
{
    match operation {
        PostLigOperation::RetainNeitherMoveToInserted => 0,
        PostLigOperation::RetainRightMoveToInserted => 0,
        PostLigOperation::RetainLeftMoveNowhere => 0,
        PostLigOperation::RetainBothMoveNowhere => 0,
        PostLigOperation::RetainRightMoveToRight => 1,
        PostLigOperation::RetainLeftMoveToInserted => 1,
        PostLigOperation::RetainBothMoveToInserted => 1,
        PostLigOperation::RetainBothMoveToRight => 2,
    }
}

fn change_of(left: usize, right: usize, advance: usize, kind: u32, value: u32) -> Change
    ensures { result ≡ change_of left right advance kind value }
{
    Change {
        left,
        right,
        advance,
        kind,
        value,
    }
}

// What a rule does: without one, or with a kern, the cursor passes the left, and the kern too.
fn retained(rule: PairRule) -> Change
    ensures { Retains (meant rule) result }
{
    match rule {
        PairRule::Free => change_of(1, 1, 1, 0, 0),
        PairRule::Kern(w) => change_of(1, 1, 2, 2, w),
        PairRule::Ligature(operation, c) => change_of(
            keeps_left(operation),
            keeps_right(operation),
            passes(operation),
            1,
            c as u32,
        ),
    }
}

// The same where the left may be the boundary, which goes once the cursor passes it.
fn finished(done: Change, boundary: bool) -> Change
    ensures { result ≡ finished_by boundary done }
{
    if boundary {
        let gone = done.left.min(done.advance);
        return change_of(
            done.left - gone,
            done.right,
            done.advance - gone,
            done.kind,
            done.value,
        );
    }
    done
}

// What a rule changes, where the left is the boundary or not.
pub fn rule_change(rule: PairRule, boundary: bool) -> Change
    ensures { (x y : List ℤ) → ChangesAs (replaced_by (meant rule) boundary x y) x y result }
{
    finished(retained(rule), boundary)
}
