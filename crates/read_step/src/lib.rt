// One step of the one-by-one reading (R64 to R71), on a list of items: kind and value of each, two numbers.
#![tactic(auto)]

ghost use Rattle.std.specs.Prelude.{◌≡◌, suc, ◌*◌, ◌/◌, ◌<◌, ◌≤◌, leb, ltb, ℤ, pos, length};
ghost use Rattle.lang.specs.Answers.{padded};
ghost use Rattle.lang.specs.Every.{both};
ghost use Rattle.fonts.specs.Fonts.{font_of, rules_of};
ghost use Rattle.readings.specs.Lists.{stand_item, replaced_at, StepsOnce};
ghost use Rattle.read_change.specs.Changes.{ChangesAs};
ghost use Rattle.read_step.specs.Changed.{count_after, changed_items, ChangeFits};

use read_change::places::{insert, remove};
use read_change::{Change, rule_change};
use read_rule::pair_rule;
use readings::OneStep;
use words::i32s::word_at;
use words::slices::zero_all;

// What the font says of the two items at the cursor.
fn change_at(
    instructions: &[i32],
    kerns: &[i32],
    entries: &[i32],
    left_entry: i32,
    design_size: i32,
    items: &[i32],
    cursor: usize,
) -> Change
    requires { 2 * suc (suc cursor) ≤ length items.now }
    ensures { (b : ℤ) → ChangesAs
        (replaced_at (rules_of (font_of instructions.now kerns.now entries.now b
        left_entry design_size)) items.now cursor) (stand_item items.now cursor)
        (stand_item items.now (suc cursor)) result }
{
    let boundary = word_at(items, 2 * cursor) == 3;
    let left = (word_at(items, 2 * cursor + 1) % 256) as u8;
    let right = (word_at(items, 2 * cursor + 3) % 256) as u8;
    let rule = pair_rule(
        instructions,
        kerns,
        entries,
        left_entry,
        design_size,
        boundary,
        left,
        right,
    );
    rule_change(rule, boundary)
}

// How many items stand after a change.
fn count_after(count: usize, change: Change) -> usize
    requires { (2 ≤ count) × (count < 4611686018427387904) × (change.left ≤ 1) × (change.right ≤ 1) }
    ensures { result ≡ count_after count change }
{
    if change.kind == 0 {
        count - 2 + change.left + change.right
    } else {
        count - 1 + change.left + change.right
    }
}

// The first `count` items after a change at the cursor, and zeros.
fn change_items(items: &mut [i32], count: usize, cursor: usize, change: Change)
    requires { ChangeFits change items.old count cursor }
    ensures { items.new ≡ padded (pos 0) (length items.old)
        (changed_items change items.old count cursor) }
{
    let room = items.len();
    remove(items, 2 * count, room - 2 * count);
    remove(items, 2 * cursor + 2, 2 - 2 * change.right);
    remove(items, 2 * cursor, 2 - 2 * change.left);
    if change.kind == 0 {
        return;
    }
    insert(
        items,
        2 * cursor + 2 * change.left,
        change.kind,
        change.value,
    );
}

// One step where the cursor is at one of the items, and the list holds them.
fn step_standing(
    instructions: &[i32],
    kerns: &[i32],
    entries: &[i32],
    left_entry: i32,
    design_size: i32,
    items: &mut [i32],
    count: usize,
    cursor: usize,
) -> OneStep
    requires { (cursor < count) × (count ≤ length items.old / 2) }
    ensures { (b : ℤ) → StepsOnce
        (rules_of (font_of instructions.now kerns.now entries.now b left_entry
        design_size)) items.old count cursor result items.new }
{
    let room = items.len();
    if count <= cursor + 1 {
        remove(items, 2 * count, room - 2 * count);
        return OneStep::Ended;
    }
    let change = change_at(
        instructions,
        kerns,
        entries,
        left_entry,
        design_size,
        items,
        cursor,
    );
    let n = count_after(count, change);
    if room / 2 < n {
        zero_all(items);
        return OneStep::Refused(15);
    }
    change_items(items, count, cursor, change);
    let moved = cursor + change.advance;
    OneStep::Standing(n, moved)
}

// The cursor is at one of the items, and a list of so many numbers holds them.
fn stands(room: usize, count: usize, cursor: usize) -> bool
    ensures { result ≡ both (ltb cursor count) (leb count (room / 2)) }
{
    if cursor < count {
        count <= room / 2
    } else {
        false
    }
}

// One step of the first `count` items, by the rule of the one at the cursor and the next; with nothing right of the
// cursor the reading has ended. 7 where the cursor is not at one of the items, or the list does not hold them; then 15.
pub fn one_step(
    instructions: &[i32],
    kerns: &[i32],
    entries: &[i32],
    left_entry: i32,
    design_size: i32,
    items: &mut [i32],
    count: usize,
    cursor: usize,
) -> OneStep
    ensures { (b : ℤ) → StepsOnce
        (rules_of (font_of instructions.now kerns.now entries.now b left_entry
        design_size)) items.old count cursor result items.new }
{
    if stands(items.len(), count, cursor) {
        return step_standing(
            instructions,
            kerns,
            entries,
            left_entry,
            design_size,
            items,
            count,
            cursor,
        );
    }
    zero_all(items);
    OneStep::Refused(7)
}
