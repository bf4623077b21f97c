// Indentation (R456; PLtoTF 21, 28, 29), in one pass over the text, comments included.
#![tactic(auto)]

ghost use Rattle.std.specs.Prelude.{◌≡◌, cond, ◌+◌, ◌-◌, ◌<◌, ◌≤◌, eqb};
ghost use Rattle.std.proofs.Math.Option.{some};
ghost use Rattle.property_lists.specs.Indents.{indents_by, with_lines, bad_indent, line_starts, inside_line};
ghost use Rattle.property_lists.specs.Indents.{after_byte, good_indents};
ghost use Rattle.property_lists.specs.Chars.{then_by};
ghost use Rattle.pl_indents.specs.Bounds.{CanGrow, IndentsTo};

use property_lists::{Indented, Indents};

// A line that breaks it.
fn bad_indent(s: Indents) -> Indented
    ensures { IndentsTo (bad_indent s) s.blanks s.level s.good result }
{
    if 10 <= s.good {
        return Indented::Refused;
    }
    Indented::To(Indents {
        mode: s.mode,
        blanks: s.blanks,
        level: s.level,
        good: 0,
        indent: 0,
    })
}

// A line with these counts after it.
fn with_lines(s: Indents, good: usize, indent: usize) -> Indented
    requires { good ≤ s.good + 1 }
    ensures { IndentsTo (some (with_lines s good indent)) s.blanks s.level (s.good + 1) result }
{
    Indented::To(Indents {
        mode: s.mode,
        blanks: s.blanks,
        level: s.level,
        good: good,
        indent: indent,
    })
}

// The first character of a line.
fn line_starts(s: Indents) -> Indented
    requires { CanGrow s }
    ensures { IndentsTo (line_starts s) s.blanks s.level (s.good + 1) result }
{
    if s.level == 0 {
        if s.blanks == 0 {
            return with_lines(s, s.good + 1, s.indent);
        }
        return bad_indent(s);
    }
    let rest = s.blanks % s.level;
    let each = s.blanks / s.level;
    if s.indent == 0 {
        if rest == 0 {
            return with_lines(s, 1, each);
        }
        return with_lines(s, 0, s.indent);
    }
    if rest != 0 {
        return bad_indent(s);
    }
    if each != s.indent {
        return bad_indent(s);
    }
    with_lines(s, s.good + 1, s.indent)
}

// How many parentheses are open behind a byte.
fn level_after(b: u8, level: usize) -> usize
    requires { level < 18446744073709551615 }
    ensures { (result ≡ cond (eqb b 40) (level + 1) (cond (eqb b 41) (level - 1) level)) × (result ≤ level + 1) }
{
    if b == 40 {
        return level + 1;
    }
    if b == 41 {
        if level == 0 {
            return 0;
        }
        return level - 1;
    }
    level
}

// Behind a byte of a line.
fn inside_line(b: u8, s: Indents) -> Indented
    requires { s.level < 18446744073709551615 }
    ensures { IndentsTo (some (inside_line b s)) s.blanks (s.level + 1) s.good result }
{
    Indented::To(Indents {
        mode: 1,
        blanks: 0,
        level: level_after(b, s.level),
        good: s.good,
        indent: s.indent,
    })
}

// Before the first character of a line.
fn at_start(s: Indents, mode: u32, blanks: usize) -> Indented
    requires { blanks ≤ s.blanks + 1 }
    ensures { IndentsTo (some (indents_by mode blanks s.level s.good s.indent)) (s.blanks + 1)
        s.level s.good result }
{
    Indented::To(Indents {
        mode: mode,
        blanks: blanks,
        level: s.level,
        good: s.good,
        indent: s.indent,
    })
}

// The first character of a line, and behind it.
fn first_byte(b: u8, s: Indents) -> Indented
    requires { CanGrow s }
    ensures { IndentsTo (then_by (line_starts s) (λ t. some (inside_line b t))) s.blanks (s.level + 1)
        (s.good + 1) result }
{
    let Indented::To(t) = line_starts(s) else {
        return Indented::Refused;
    };
    inside_line(b, t)
}

// Behind any byte.
fn after_byte(b: u8, s: Indents) -> Indented
    requires { CanGrow s }
    ensures { IndentsTo (after_byte b s) (s.blanks + 1) (s.level + 1) (s.good + 1) result }
{
    if b == 10 {
        return at_start(s, 0, 0);
    }
    if s.mode == 1 {
        return inside_line(b, s);
    }
    if b == 13 {
        return at_start(s, 2, s.blanks);
    }
    if b != 32 {
        return first_byte(b, s);
    }
    if s.mode != 0 {
        return first_byte(b, s);
    }
    at_start(s, 0, s.blanks + 1)
}

// The whole text.
pub fn good_indents(text: &[u8]) -> bool
    ensures { result ≡ good_indents text.now }
{
    let mut s = Indents {
        mode: 0,
        blanks: 0,
        level: 0,
        good: 0,
        indent: 0,
    };
    for b in text {
        let Indented::To(t) = after_byte(*b, s) else {
            return false;
        };
        s = t;
    }
    true
}
