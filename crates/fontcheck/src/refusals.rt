// Why a file is refused, and the words for it.
use crate::line::Line;
use file_lengths::file_half;
use file_load::Loaded;

// The argument has no room; the file was not read; or its bytes are refused, most of them by a number.
#[derive(Clone, Copy)]
pub(crate) enum Refusal {
    LongName,
    Missing,
    Unreadable(u32),
    TooLong,
    Pairs,
    Kern,
    Ops,
    Length,
    Lengths,
    Other(u32),
}

impl Refusal {
    // What a number means.
    pub(crate) fn of_number(number: u32, file: &[u8]) -> Refusal {
        match number {
            12 => Refusal::Pairs,
            13 => Refusal::Kern,
            14 => Refusal::Ops,
            17 => Refusal::of_lengths(file),
            _ => Refusal::Other(number),
        }
    }

    // 17: the file is not as long as its first two bytes say, or its lengths do not fit.
    fn of_lengths(file: &[u8]) -> Refusal {
        if file.len() == 4 * (file_half(file, 0) as usize) {
            Refusal::Lengths
        } else {
            Refusal::Length
        }
    }

    // The words for it.
    pub(crate) fn put(self, line: &mut Line) {
        match self {
            Refusal::LongName => line.text(b"refused: a name of more than 4,096 bytes"),
            Refusal::Missing => line.text(b"refused: no such file"),
            Refusal::Unreadable(error) => line.counted(b"refused: cannot be read, error ", error),
            Refusal::TooLong => line.text(b"refused: longer than 32,767 words"),
            Refusal::Pairs => line.text(b"refused, 12: more than 49,152 pairs have a rule"),
            Refusal::Kern => {
                line.text(
                    b"refused, 13: a kern that a pair uses is 16 times the design size or more",
                );
            }
            Refusal::Ops => line.text(b"refused, 14: more than 98,304 ops"),
            Refusal::Length => line.text(b"refused, 17: not the length that its first bytes say"),
            Refusal::Lengths => line.text(b"refused, 17: its lengths do not fit together"),
            Refusal::Other(number) => {
                line.counted(b"refused, ", number);
                line.text(b": see README");
            }
        }
    }
}

// How many bytes were read, or why none.
pub(crate) fn bytes_read(loaded: Loaded) -> Result<usize, Refusal> {
    match loaded {
        Loaded::Bytes(n) => Ok(n),
        Loaded::Missing => Err(Refusal::Missing),
        Loaded::Unreadable(error) => Err(Refusal::Unreadable(error)),
        Loaded::TooLong => Err(Refusal::TooLong),
    }
}
