// The size that is asked for: at POINTS, a decimal (TeX 102, 452), or scaled THOUSANDTHS.
use point_scan::scan_points;
use std::rt::Env;

// The most that a magnification is read as.
const MOST: u32 = 100000;

// A size in scaled points and a magnification in thousandths; 0 for what is not asked for.
#[derive(Clone, Copy)]
pub(crate) struct Scale {
    pub(crate) size: u32,
    pub(crate) magnification: u32,
}

// A size or a magnification of 0; one that can't be read; or neither `at` nor `scaled`.
#[derive(Clone, Copy)]
pub(crate) enum SizeError {
    Zero,
    Unreadable,
    Unknown,
}

// A size in points.
fn read_points(text: &[u8]) -> Result<Scale, SizeError> {
    match scan_points(text).ok_or(SizeError::Unreadable)? {
        0 => Err(SizeError::Zero),
        size => Ok(Scale {
            size,
            magnification: 0,
        }),
    }
}

// A number with a digit behind it; MOST for all that is more.
fn with_digit(n: u32, b: u8) -> Option<u32> {
    if !b.is_ascii_digit() {
        return None;
    }
    let longer = n.saturating_mul(10).saturating_add((b - b'0') as u32);
    Some(longer.min(MOST))
}

// The number of one digit or more.
fn number_of(text: &[u8]) -> Option<u32> {
    if text.is_empty() {
        return None;
    }
    let mut n = 0;
    for b in text {
        n = with_digit(n, *b)?;
    }
    Some(n)
}

// A magnification in thousandths.
fn read_thousandths(text: &[u8]) -> Result<Scale, SizeError> {
    match number_of(text).ok_or(SizeError::Unreadable)? {
        0 => Err(SizeError::Zero),
        magnification => Ok(Scale {
            size: 0,
            magnification,
        }),
    }
}

// A size by its kind and its number.
fn read_size(kind: &[u8], number: &[u8]) -> Result<Scale, SizeError> {
    if kind == b"at".as_slice() {
        return read_points(number);
    }
    if kind == b"scaled".as_slice() {
        return read_thousandths(number);
    }
    Err(SizeError::Unknown)
}

// The size of the arguments.
pub(crate) fn read_asked(rt: &impl Env) -> Result<Scale, SizeError> {
    let mut kind = [0u8; 4096];
    let Ok(k) = rt.arg(3, &mut kind) else {
        return Err(SizeError::Unknown);
    };
    let mut number = [0u8; 4096];
    let Ok(n) = rt.arg(4, &mut number) else {
        return Err(SizeError::Unreadable);
    };
    read_size(&kind[..k], &number[..n])
}
