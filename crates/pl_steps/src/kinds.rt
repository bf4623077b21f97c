// What stands after the name of a property (PLtoTF 94 to 102).
ghost use Rattle.std.specs.Prelude.{◌≡◌, ◌-◌, ◌≤◌, length, drop};
ghost use Rattle.property_lists.specs.Properties.{closed_by, label_from, label_at, comment_from, kern_from};
ghost use Rattle.property_lists.specs.Properties.{ligature_from};
ghost use Rattle.property_lists.specs.Properties.{by_code, no_bytes, of_byte, ReadsProperty};
ghost use Rattle.property_lists.specs.declared.Property.TheVariants as property;

use pl_blanks::{past_blanks, to_paren};
use pl_bytes::upper_case;
use pl_chars::{past_comment, past_end};
use pl_reals::real_value;
use pl_values::byte_value;
use property_lists::{Property, PropertyRead, ValueRead};

// A property that ends here.
fn closed_by(text: &[u8], at: usize, p: Property) -> PropertyRead
    ensures { ReadsProperty (closed_by p (drop at text.now)) text.now at no_bytes result }
{
    match past_end(text, at) {
        Some(n) => PropertyRead::Read(p, n),
        None => PropertyRead::Refused,
    }
}

// The boundary character.
fn boundary(text: &[u8], at: usize) -> PropertyRead
    ensures { ReadsProperty (of_byte property.Boundary (drop at text.now)) text.now at
        no_bytes result }
{
    let ValueRead::Value(v, n) = byte_value(text, at) else {
        return PropertyRead::Refused;
    };
    closed_by(text, n, Property::Boundary(v))
}

// A character's label.
fn character_label(text: &[u8], at: usize) -> PropertyRead
    ensures { ReadsProperty (of_byte property.Label (drop at text.now)) text.now at no_bytes
        result }
{
    let ValueRead::Value(v, n) = byte_value(text, at) else {
        return PropertyRead::Refused;
    };
    closed_by(text, n, Property::Label(v))
}

// A skip.
fn skip(text: &[u8], at: usize) -> PropertyRead
    ensures { ReadsProperty (of_byte property.Skip (drop at text.now)) text.now at no_bytes
        result }
{
    let ValueRead::Value(v, n) = byte_value(text, at) else {
        return PropertyRead::Refused;
    };
    closed_by(text, n, Property::Skip(v))
}

// A label: B is the boundary's.
fn label_from(text: &[u8], at: usize) -> PropertyRead
    requires { at ≤ length text.now }
    ensures { ReadsProperty (label_from (drop at text.now)) text.now at no_bytes result }
{
    if text.len() <= at {
        return PropertyRead::Refused;
    }
    if upper_case(text[at]) != 66 {
        return character_label(text, at);
    }
    let Some(n) = to_paren(text, at + 1) else {
        return PropertyRead::Refused;
    };
    closed_by(text, n, Property::Label(256))
}

// A kern.
fn kern_from(text: &[u8], at: usize) -> PropertyRead
    ensures { ReadsProperty (kern_from (drop at text.now)) text.now at no_bytes result }
{
    let ValueRead::Value(right, i) = byte_value(text, at) else {
        return PropertyRead::Refused;
    };
    let ValueRead::Value(bits, j) = real_value(text, i) else {
        return PropertyRead::Refused;
    };
    closed_by(text, j, Property::Kern(right, bits))
}

// A ligature.
fn ligature_from(text: &[u8], at: usize, op: u32) -> PropertyRead
    ensures { ReadsProperty (ligature_from op (drop at text.now)) text.now at no_bytes result }
{
    let ValueRead::Value(right, i) = byte_value(text, at) else {
        return PropertyRead::Refused;
    };
    let ValueRead::Value(inserted, j) = byte_value(text, i) else {
        return PropertyRead::Refused;
    };
    closed_by(text, j, Property::Ligature(op, right, inserted))
}

// A comment.
fn comment(text: &[u8], at: usize) -> PropertyRead
    ensures { ReadsProperty (comment_from (drop at text.now)) text.now at no_bytes result }
{
    match past_comment(text, at) {
        Some(n) => PropertyRead::Read(Property::Comment, n),
        None => PropertyRead::Refused,
    }
}

// A label after blanks.
fn label(text: &[u8], at: usize) -> PropertyRead
    ensures { ReadsProperty (label_at (drop at text.now)) text.now at no_bytes result }
{
    let Some(i) = past_blanks(text, at) else {
        return PropertyRead::Refused;
    };
    label_from(text, i)
}

// The op byte of a code.
fn op_of(code: u32) -> u32
    ensures { result ≡ code - 74 }
{
    if code < 74 { 0 } else { code - 74 }
}

// By the code of its name.
pub(crate) fn by_code(text: &[u8], at: usize, code: u32) -> PropertyRead
    requires { at ≤ length text.now }
    ensures { ReadsProperty (by_code code (drop at text.now)) text.now at no_bytes result }
{
    if code == 0 {
        return comment(text, at);
    }
    if code == 10 {
        return PropertyRead::Read(Property::Table, at);
    }
    if code == 11 {
        return boundary(text, at);
    }
    if code == 70 {
        return label(text, at);
    }
    if code == 71 {
        return closed_by(text, at, Property::Stop);
    }
    if code == 72 {
        return skip(text, at);
    }
    if code == 73 {
        return kern_from(text, at);
    }
    ligature_from(text, at, op_of(code))
}
