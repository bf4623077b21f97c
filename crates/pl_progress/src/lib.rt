// Where reading stands after a property that changes no list, and what can be asked before one (PLtoTF 82 to 85, 97).
#![tactic(auto)]

ghost use Rattle.std.specs.Prelude.{◌≡◌, ◌≤◌};
ghost use Rattle.property_lists.specs.Properties.{least_bytes};
ghost use Rattle.property_lists.specs.ListReading.{bounded, table_opened, table_closed, has_label, may_label};
ghost use Rattle.pl_progress.specs.Changes.{changed_to};

use property_lists::{Progress, Property};
use words::i32s::word_at;

// BOUNDARYCHAR.
pub fn bounded(c: u32, s: Progress) -> Option<Progress>
    ensures { changed_to result ≡ bounded c s }
{
    if s.stage != 0 {
        return None;
    }
    Some(Progress {
        stage: 1,
        boundary: c,
        steps: s.steps,
        ending: s.ending,
        needed: s.needed,
    })
}

// LIGTABLE.
pub fn table_opened(s: Progress) -> Option<Progress>
    ensures { changed_to result ≡ table_opened s }
{
    if 1 < s.stage {
        return None;
    }
    Some(Progress {
        stage: 2,
        boundary: s.boundary,
        steps: s.steps,
        ending: s.ending,
        needed: s.needed,
    })
}

// The parenthesis that closes it.
pub fn table_closed(s: Progress) -> Option<Progress>
    ensures { changed_to result ≡ table_closed s }
{
    if s.stage != 2 {
        return None;
    }
    Some(Progress {
        stage: 3,
        boundary: s.boundary,
        steps: s.steps,
        ending: s.ending,
        needed: s.needed,
    })
}

// A character or the boundary has a label.
pub fn has_label(labels: &[i32], c: usize) -> bool
    ensures { result ≡ has_label c labels.now }
{
    word_at(labels, c) != 4294967295
}

// A label may stand here.
pub fn may_label(c: u32, s: Progress, labels: &[i32]) -> bool
    ensures { result ≡ may_label c s labels.now }
{
    if s.stage != 2 {
        return false;
    }
    if 256 <= c {
        return true;
    }
    !has_label(labels, c as usize)
}

// How many bytes a property has at least; the end of the text has none.
pub fn least_bytes(p: Property) -> usize
    ensures { (result ≡ least_bytes p) × (result ≤ 4) }
{
    match p {
        Property::Ended => 0,
        Property::Closed => 1,
        Property::Comment => 4,
        Property::Boundary(_) => 4,
        Property::Table => 4,
        Property::Label(_) => 4,
        Property::Stop => 4,
        Property::Skip(_) => 4,
        Property::Ligature(_, _, _) => 4,
        Property::Kern(_, _) => 4,
    }
}
