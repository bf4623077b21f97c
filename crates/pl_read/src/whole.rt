// All properties of a text, and what is tested at its end.
ghost use Rattle.std.specs.Prelude.{◌≡◌, List, suc, ◌*◌, ◌≤◌, ℤ, negsuc, length, replicate};
ghost use Rattle.property_lists.specs.ListReading.{ListRead, nothing_read, read_all, list_finished, pl_read};
ghost use Rattle.pl_apply.specs.Standing.{Stands, Follows};
ghost use Rattle.pl_read.specs.Going.{steps_in};

use pl_apply::applied;
use pl_indents::good_indents;
use pl_progress::least_bytes;
use pl_steps::property;
use property_lists::{Progress, PropertyRead};
use words::i32s::put_word;

// Properties up to the end of the text.
fn read_all(text: &[u8], instructions: &mut [i32], labels: &mut [i32]) -> Option<Progress>
    requires { labels.old ≡ replicate 257 (negsuc 0) }
    ensures follows { Follows instructions.old (read_all (suc (length text.now)) nothing_read
        text.now) result instructions.new labels.new }
    ensures result_in_bounds { 4 * steps_in result ≤ length text.now }
{
    let mut s = Progress {
        stage: 0,
        boundary: 4294967295,
        steps: 0,
        ending: false,
        needed: 0,
    };
    let mut at = 0;
    // Ends by what a property answers, and steps to the place that it answers.
    loop {
        let PropertyRead::Read(p, n) = property(text, at) else {
            return None;
        };
        if least_bytes(p) == 0 {
            return Some(s);
        }
        s = applied(p, s, instructions, labels)?;
        at = n;
    }
}

// At the end of the text: LIGTABLE is closed, labels and SKIPs lead to steps, and the last step ends.
fn finish(s: Progress, instructions: &mut [i32]) -> Option<Progress>
    requires { 4 * s.steps ≤ 18446744073709551615 }
    ensures { (z : List ℤ) (l : ListRead) (b : List ℤ) → Stands z l s instructions.old b →
        Follows z (list_finished l) result instructions.new b }
{
    if s.stage == 2 {
        return None;
    }
    if s.steps < s.needed {
        return None;
    }
    if s.ending {
        put_word(instructions, 4 * s.steps.saturating_sub(1), 4294967295);
        return Some(s);
    }
    Some(s)
}

// A text, to a table without labels.
pub(crate) fn scan(text: &[u8], instructions: &mut [i32], labels: &mut [i32]) -> Option<Progress>
    requires { labels.old ≡ replicate 257 (negsuc 0) }
    ensures { Follows instructions.old (pl_read text.now) result instructions.new
        labels.new }
{
    if !good_indents(text) {
        return None;
    }
    let s = read_all(text, instructions, labels)?;
    finish(s, instructions)
}
