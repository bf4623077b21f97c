// The twelve lengths of a font file, the words at which its sections start, and 17 (TeX 540, 541). Each function is the
// definition of the same name in files/specs/Lengths.antt.
#![tactic(auto)]

ghost use Rattle.std.specs.Prelude.{◌≡◌, leb};
ghost use Rattle.lang.specs.Every.{every};
ghost use Rattle.files.specs.Lengths.{file_half, lengths_of, char_count, char_start, command_start, kern_start};
ghost use Rattle.files.specs.Lengths.{recipe_start, file_end, lengths_fit, lengths_refusal};

use files::FileLengths;
use words::slices::item_at;

// The number of two bytes that stands in place i, the higher first.
pub fn file_half(file: &[u8], i: u8) -> u32
    ensures { result ≡ file_half file.now i }
{
    let at = 2 * (i as usize);
    let high = item_at(file, at) as u32;
    256 * high + (item_at(file, at + 1) as u32)
}

// The twelve lengths.
pub fn lengths_of(file: &[u8]) -> FileLengths
    ensures { result ≡ lengths_of file.now }
{
    FileLengths {
        lf: file_half(file, 0),
        lh: file_half(file, 1),
        bc: file_half(file, 2),
        ec: file_half(file, 3),
        nw: file_half(file, 4),
        nh: file_half(file, 5),
        nd: file_half(file, 6),
        ni: file_half(file, 7),
        nl: file_half(file, 8),
        nk: file_half(file, 9),
        ne: file_half(file, 10),
        np: file_half(file, 11),
    }
}

// How many characters have a word.
pub fn char_count(l: FileLengths) -> usize
    ensures { result ≡ char_count l }
{
    (l.ec as usize + 1).saturating_sub(l.bc as usize)
}

// The first word of the characters.
pub fn char_start(l: FileLengths) -> usize
    ensures { result ≡ char_start l }
{
    6 + (l.lh as usize)
}

// The first word of the lig/kern section.
pub fn command_start(l: FileLengths) -> usize
    ensures { result ≡ command_start l }
{
    let widths = char_start(l) + char_count(l);
    widths + (l.nw as usize) + (l.nh as usize) + (l.nd as usize) + (l.ni as usize)
}

// The first word of the kerns.
pub fn kern_start(l: FileLengths) -> usize
    ensures { result ≡ kern_start l }
{
    command_start(l) + (l.nl as usize)
}

// The first word of the recipes.
pub fn recipe_start(l: FileLengths) -> usize
    ensures { result ≡ recipe_start l }
{
    kern_start(l) + (l.nk as usize)
}

// How many words the lengths ask for.
pub fn file_end(l: FileLengths) -> usize
    ensures { result ≡ file_end l }
{
    recipe_start(l) + (l.ne as usize) + (l.np as usize)
}

// The lengths fit together.
fn lengths_fit(l: FileLengths) -> bool
    ensures { result ≡ lengths_fit l }
{
    if l.ec as usize + 1 < l.bc as usize {
        return false;
    }
    if 255 < l.ec {
        return false;
    }
    l.lf as usize == file_end(l)
}

// None of the twelve is above 32,767.
fn lengths_small(file: &[u8]) -> bool
    ensures { result ≡ every 12 (λ i. leb (file_half file.now i) 32767) }
{
    for i in 0..12 {
        if 32767 < file_half(file, i) {
            return false;
        }
    }
    true
}

// 17, or 0.
pub fn lengths_refusal(file: &[u8]) -> u32
    ensures { result ≡ lengths_refusal file.now }
{
    if !lengths_small(file) {
        return 17;
    }
    let l = lengths_of(file);
    if !lengths_fit(l) {
        return 17;
    }
    if file.len() == 4 * (l.lf as usize) {
        0
    } else {
        17
    }
}
