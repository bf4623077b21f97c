// The names of properties (PLtoTF 44, 47).
#![tactic(auto)]

ghost use Rattle.std.proofs.Math.Option.{none};
ghost use Rattle.std.specs.Prelude.{◌≤◌, length, drop};
ghost use Rattle.property_lists.specs.Chars.{past_name};
ghost use Rattle.property_lists.specs.Values.{number_after, Scans};
ghost use Rattle.property_lists.specs.Properties.{or_named, first_named, common_names, name_at};

use pl_chars::past_name;
use property_lists::ValueRead;

// The code of a name that stands here, where none before it does.
fn or_named(text: &[u8], at: usize, earlier: ValueRead, code: u32, name: &[u8]) -> ValueRead
    requires { (3 ≤ length name.now) × Scans (number_after text.now earlier) text.now at 3 earlier }
    ensures { Scans (or_named (number_after text.now earlier) code
        (past_name name.now (drop at text.now))) text.now at 3 result }
{
    match earlier {
        ValueRead::Value(_, _) => earlier,
        ValueRead::Refused => match past_name(text, at, name) {
            Some(n) => ValueRead::Value(code, n),
            None => ValueRead::Refused,
        },
    }
}

// The code of the name that stands here, if it is not one of the other ligatures.
fn common_name(text: &[u8], at: usize) -> ValueRead
    ensures { Scans (first_named none common_names (drop at text.now)) text.now at 3 result }
{
    let a = or_named(text, at, ValueRead::Refused, 0, b"COMMENT");
    let b = or_named(text, at, a, 73, b"KRN");
    let c = or_named(text, at, b, 74, b"LIG");
    let d = or_named(text, at, c, 70, b"LABEL");
    let e = or_named(text, at, d, 71, b"STOP");
    let f = or_named(text, at, e, 72, b"SKIP");
    let g = or_named(text, at, f, 10, b"LIGTABLE");
    or_named(text, at, g, 11, b"BOUNDARYCHAR")
}

// The code of the name that stands here.
pub fn name_at(text: &[u8], at: usize) -> ValueRead
    ensures { Scans (name_at (drop at text.now)) text.now at 3 result }
{
    let h = common_name(text, at);
    let i = or_named(text, at, h, 75, b"LIG/");
    let j = or_named(text, at, i, 76, b"/LIG");
    let k = or_named(text, at, j, 77, b"/LIG/");
    let l = or_named(text, at, k, 79, b"LIG/>");
    let m = or_named(text, at, l, 80, b"/LIG>");
    let n = or_named(text, at, m, 81, b"/LIG/>");
    or_named(text, at, n, 85, b"/LIG/>>")
}
