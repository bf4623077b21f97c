// Whether a font that is asked for is known to wait through a step: one look-up. Each function is the definition of its
// name in specs/Waiting.antt.
#![tactic(auto)]

ghost use Rattle.std.specs.Prelude.{◌≡◌, true, cond};
ghost use Rattle.c_font_waits.specs.Waiting.{has_pair, is_held, is_waiting};

use c_font_runs::is_run;
use c_states::states::state_in;
use captions::State;
use program_checks::absent_refusal;
use step_quick::left::plain_code;
use step_quick_find::found_place;

// A character that has a pair with the next letter.
fn has_pair(pairs: &[i32], word: &[u32], s: State) -> bool
    ensures { result ≡ has_pair pairs.now word.now s }
{
    let left = s.next_left;
    let c = plain_code(left);
    if 255 < c {
        return false;
    }
    let read = s.read;
    if word.len() <= read {
        return false;
    }
    let y = word[read];
    if 255 < y {
        return false;
    }
    found_place(pairs, c + 1, y) < pairs.len() / 6
}

// An op is to be given, or that.
fn is_held(pairs: &[i32], word: &[u32], s: State) -> bool
    ensures { result ≡ is_held pairs.now word.now s }
{
    if s.ops != 0 {
        return true;
    }
    has_pair(pairs, word, s)
}

// The numbers of a run of which that holds, with both boundary characters in range.
fn is_waiting(pairs: &[i32], boundary: i32, asked_boundary: i32, word: &[u32], run: &[u64]) -> bool
    ensures { result ≡ is_waiting boundary asked_boundary pairs.now word.now
        run.now }
{
    if !is_run(run) {
        return false;
    }
    if absent_refusal(255, boundary) != 0 {
        return false;
    }
    if absent_refusal(255, asked_boundary) != 0 {
        return false;
    }
    let from = state_in(run);
    is_held(pairs, word, from)
}

// The step stays in the font in force: nothing is asked for, or what is asked for waits.
pub fn is_kept(
    idle: bool,
    pairs: &[i32],
    boundary: i32,
    asked_boundary: i32,
    word: &[u32],
    run: &[u64],
) -> bool
    ensures { result ≡ cond idle true (is_waiting boundary asked_boundary pairs.now
        word.now run.now) }
{
    if idle {
        return true;
    }
    is_waiting(pairs, boundary, asked_boundary, word, run)
}
