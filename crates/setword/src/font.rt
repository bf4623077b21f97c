// The word set in a font: the font read from its file, compiled, and the word's items.
ghost use Rattle.std.specs.Prelude.{◌≡◌, length};

use crate::asked::Scale;
use crate::items::print_items;
use crate::print::print_text;
use crate::refusals::print_refused;
use captions::RunOptions;
use compile::compile;
use file_font::read_font;
use file_fonts::FileFont;
use font_room::parts::{fours, ones, sixes, twos};
use font_room::{
    entry_room, instruction_room, kern_room, loop_room, lost_room, op_room, pair_room, work_room,
};
use fonts::Compiled;
use lang::Written;
use word_set::set_word;
use words::number_of;

// A font that was read; -1 for no boundary character and for no left entry.
#[derive(Clone, Copy)]
struct Font<'a> {
    instructions: &'a [i32],
    kerns: &'a [i32],
    entries: &'a [i32],
    boundary: i32,
    left_entry: i32,
    design: i32,
}

// One number a letter.
fn letter_room() -> [u32; 4096]
    ensures { 4096 ≡ length result }
{
    [0; 4096]
}

// Six numbers an item.
fn item_room() -> [i32; 98304]
    ensures { 98304 ≡ length result }
{
    [0; 98304]
}

// The first n letters; all where there are fewer.
fn letters_of(list: &[u32], n: usize) -> &[u32] {
    list.get(..n).unwrap_or(list)
}

// The bytes of a word as letters.
fn put_letters(list: &mut [u32], word: &[u8]) {
    for (letter, b) in list.iter_mut().zip(word) {
        *letter = *b as u32;
    }
}

// The word set over tables.
fn set_tables(
    rt: &(impl Print + Eprint),
    pairs: &[i32],
    ops: &[i32],
    boundary: i32,
    word: &[u8],
    file: &[u8],
) {
    let mut letters = letter_room();
    put_letters(&mut letters, word);
    let mut items = item_room();
    let options = RunOptions {
        disable_left_boundary: false,
        right_boundary_override: -1,
    };
    match set_word(
        pairs,
        ops,
        boundary,
        letters_of(&letters, word.len()),
        options,
        &mut items,
    ) {
        Written::Count(n) => print_items(rt, sixes(&items, n), word),
        Written::Refused(number) => print_refused(rt, number, file),
    }
}

// Says that the font has a loop.
fn print_loops(rt: &(impl Print + Eprint), loops: usize) {
    if 0 < loops {
        print_text(
            rt,
            b"LOOP: pairs of this font never end, and are set as if they had no rule; fontcheck names them\n",
        );
    }
}

// The word set in a font that was read, at a scale.
fn set_read(rt: &(impl Print + Eprint), font: &Font, scale: Scale, word: &[u8], file: &[u8]) {
    let mut pairs = pair_room();
    let mut ops = op_room();
    let mut loops = loop_room();
    let mut work = work_room();
    match compile(
        font.instructions,
        font.kerns,
        font.entries,
        font.boundary,
        font.left_entry,
        font.design,
        number_of(scale.size),
        number_of(scale.magnification),
        &mut pairs,
        &mut ops,
        &mut loops,
        &mut work,
    ) {
        Compiled::Refused(number) => print_refused(rt, number, file),
        Compiled::Tables(p, o, l) => {
            print_loops(rt, l);
            set_tables(
                rt,
                sixes(&pairs, p),
                twos(&ops, o),
                font.boundary,
                word,
                file,
            );
        }
    }
}

// The word set in the font of a file.
pub(crate) fn set_font(rt: &(impl Print + Eprint), file: &[u8], word: &[u8], scale: Scale) {
    let mut instructions = instruction_room();
    let mut kerns = kern_room();
    let mut entries = entry_room();
    let mut lost = lost_room();
    match read_font(file, &mut instructions, &mut kerns, &mut entries, &mut lost) {
        FileFont::Refused(number) => print_refused(rt, number, file),
        FileFont::Font(n, k, e, _, boundary, left_entry, design) => {
            let font = Font {
                instructions: fours(&instructions, n),
                kerns: ones(&kerns, k),
                entries: twos(&entries, e),
                boundary,
                left_entry,
                design,
            };
            set_read(rt, &font, scale, word, file);
        }
    }
}
