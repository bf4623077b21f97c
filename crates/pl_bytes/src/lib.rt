// Single bytes of a property list (PLtoTF 31, 32, 52).
#![tactic(auto)]

ghost use Rattle.std.specs.Prelude.{◌≡◌};
ghost use Rattle.property_lists.specs.Chars.{upper_case, is_figure, is_capital, is_visible};

// A letter in upper case.
pub fn upper_case(b: u8) -> u8
    ensures { result ≡ upper_case b }
{
    if 97 <= b {
        if b <= 122 {
            return b - 32;
        }
    }
    b
}

// A digit.
pub fn is_figure(b: u8) -> bool
    ensures { result ≡ is_figure b }
{
    if b < 48 {
        return false;
    }
    b <= 57
}

// A capital letter.
pub fn is_capital(b: u8) -> bool
    ensures { result ≡ is_capital b }
{
    if b < 65 {
        return false;
    }
    b <= 90
}

// A character that shows in print, parentheses aside.
pub fn is_visible(b: u8) -> bool
    ensures { result ≡ is_visible b }
{
    if b < 33 {
        return false;
    }
    if 126 < b {
        return false;
    }
    if b == 40 {
        return false;
    }
    b != 41
}
