// Two answers of steps beside each other (R482): the same item, with its original and its flags, or both the end. Each
// function is the definition of its name in specs/Answers.antt.
#![tactic(auto)]

ghost use Rattle.std.specs.Prelude.{◌≡◌};
ghost use Rattle.captions.specs.declared.Answer.TheVariants as answer;
ghost use Rattle.same_answer.specs.Answers.{same_flag, is_character_item, is_ligature_item, is_kern_item, same_answer};

use captions::Answer;
use words::word_of;

// Both flags are set, or neither is.
fn same_flag(a: bool, b: bool) -> bool
    ensures { result ≡ same_flag a b }
{
    if a { b } else { !b }
}

// An answer is the character of a code at a place.
fn is_character_item(code: u32, start: usize, b: Answer) -> bool
    ensures { result ≡ is_character_item code start b }
{
    match b {
        Answer::Char(c, at) => code == c && start == at,
        Answer::Ligature(_, _, _, _, _) => false,
        Answer::Kern(_) => false,
        Answer::End => false,
        Answer::Refused(_) => false,
    }
}

// An answer is the ligature of a code, with an original and flags.
fn is_ligature_item(code: u32, start: usize, n: usize, left: bool, right: bool, b: Answer) -> bool
    ensures { result ≡ is_ligature_item code start n left right b }
{
    match b {
        Answer::Ligature(c, at, m, l, r) => {
            if code != c {
                return false;
            }
            if start != at {
                return false;
            }
            if n != m {
                return false;
            }
            same_flag(left, l) && same_flag(right, r)
        }
        Answer::Char(_, _) => false,
        Answer::Kern(_) => false,
        Answer::End => false,
        Answer::Refused(_) => false,
    }
}

// An answer is a kern.
fn is_kern_item(kern: i32, b: Answer) -> bool
    ensures { result ≡ is_kern_item kern b }
{
    match b {
        Answer::Kern(k) => word_of(kern) == word_of(k),
        Answer::Char(_, _) => false,
        Answer::Ligature(_, _, _, _, _) => false,
        Answer::End => false,
        Answer::Refused(_) => false,
    }
}

// An answer is the end.
fn is_end(b: Answer) -> bool
    ensures { result ≡ same_answer answer.End b }
{
    match b {
        Answer::End => true,
        Answer::Char(_, _) => false,
        Answer::Ligature(_, _, _, _, _) => false,
        Answer::Kern(_) => false,
        Answer::Refused(_) => false,
    }
}

// Two answers are the same item, or both the end. A refusal is the same as nothing.
pub fn same_answer(a: Answer, b: Answer) -> bool
    ensures { result ≡ same_answer a b }
{
    match a {
        Answer::Char(c, start) => is_character_item(c, start, b),
        Answer::Ligature(c, start, n, left, right) => is_ligature_item(c, start, n, left, right, b),
        Answer::Kern(k) => is_kern_item(k, b),
        Answer::End => is_end(b),
        Answer::Refused(_) => false,
    }
}
