// Where reading stands after a property of LIGTABLE: each kind of property, in a function of its own.
ghost use Rattle.std.specs.Prelude.{◌≡◌, [], ◌∷◌, ◌+◌, ◌*◌, ◌%◌, ◌<◌, ◌≤◌, pos, negsuc, leb, eqb};
ghost use Rattle.std.proofs.lemmas.List.Edits.{sets};
ghost use Rattle.words.specs.Words.{number_of};
ghost use Rattle.lang.specs.Every.{both};
ghost use Rattle.property_lists.specs.ListReading.{at_least, may_label};
ghost use Rattle.property_lists.specs.ListReading.{labelled_at, label_set, may_end, ended_at, next_set, stepped_at};
ghost use Rattle.pl_apply.specs.Standing.{ChangesBy};

use pl_progress::may_label;
use property_lists::Progress;
use words::i32s::put_word;

// As many steps as a label or SKIP asks for.
fn at_least(needed: usize, n: usize) -> usize
    requires { n < 18446744073709551615 }
    ensures { result ≡ at_least needed n }
{
    if needed <= n { n + 1 } else { needed }
}

// LABEL.
pub(crate) fn label(c: u32, s: Progress, labels: &mut [i32]) -> Option<Progress>
    requires { 4 * s.steps ≤ 18446744073709551615 }
    ensures { ChangesBy (may_label c s labels.old) (labelled_at s)
        (label_set c s.steps labels.old) labels.old result labels.new }
{
    if !may_label(c, s, labels) {
        return None;
    }
    put_word(labels, c as usize, s.steps.min(65535) as u32);
    let needed = at_least(s.needed, s.steps);
    Some(Progress {
        stage: s.stage,
        boundary: s.boundary,
        steps: s.steps,
        ending: false,
        needed: needed,
    })
}

// The end of a step: its next, and how many steps are asked for then.
fn end_step(next: u32, needed: usize, s: Progress, instructions: &mut [i32]) -> Option<Progress>
    requires { 4 * s.steps ≤ 18446744073709551615 }
    ensures { ChangesBy (may_end s) (ended_at needed s)
        (next_set s.steps (number_of next) instructions.old) instructions.old result
        instructions.new }
{
    if s.stage != 2 {
        return None;
    }
    if !s.ending {
        return None;
    }
    put_word(instructions, 4 * s.steps.saturating_sub(1), next);
    Some(Progress {
        stage: s.stage,
        boundary: s.boundary,
        steps: s.steps,
        ending: false,
        needed: needed,
    })
}

// STOP.
pub(crate) fn stop(s: Progress, instructions: &mut [i32]) -> Option<Progress>
    requires { 4 * s.steps ≤ 18446744073709551615 }
    ensures { ChangesBy (may_end s) (ended_at s.needed s)
        (next_set s.steps (negsuc 0) instructions.old) instructions.old result
        instructions.new }
{
    end_step(4294967295, s.needed, s, instructions)
}

// SKIP.
pub(crate) fn skip(n: u32, s: Progress, instructions: &mut [i32]) -> Option<Progress>
    requires { 4 * s.steps ≤ 18446744073709551615 }
    ensures { ChangesBy (both (may_end s) (leb n 127)) (ended_at (at_least s.needed (s.steps + n)) s)
        (next_set s.steps (pos n) instructions.old) instructions.old result
        instructions.new }
{
    if 127 < n {
        return None;
    }
    end_step(n, at_least(s.needed, s.steps + n as usize), s, instructions)
}

// LIG and KRN: a step with these numbers.
pub(crate) fn put_step(
    right: u32,
    kind: u32,
    operand: u32,
    s: Progress,
    instructions: &mut [i32],
) -> Option<Progress>
    requires { 4 * s.steps + 4 ≤ 18446744073709551615 }
    ensures { ChangesBy (eqb s.stage 2) (stepped_at s)
        (sets instructions.old (4 * s.steps)
        (pos 0 ∷ pos (right % 256) ∷ number_of kind ∷ number_of operand ∷ [])) instructions.old result
        instructions.new }
{
    if s.stage != 2 {
        return None;
    }
    put_word(instructions, 4 * s.steps, 0);
    put_word(instructions, 4 * s.steps + 1, right % 256);
    put_word(instructions, 4 * s.steps + 2, kind);
    put_word(instructions, 4 * s.steps + 3, operand);
    Some(Progress {
        stage: s.stage,
        boundary: s.boundary,
        steps: s.steps + 1,
        ending: true,
        needed: s.needed,
    })
}
