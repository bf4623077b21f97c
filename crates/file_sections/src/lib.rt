// A font file joined of parts, front to back. Each part is lent from its first byte on, and written there.
#![tactic(auto)]

ghost use Rattle.std.specs.Prelude.{◌≡◌, ◌++◌, ◌+◌, ◌-◌, ◌*◌, ◌≤◌, negsuc, length, get_or, drop};
ghost use Rattle.std.proofs.lemmas.List.Edits.{sets};
ghost use Rattle.lang.specs.Records.{count};
ghost use Rattle.files.specs.Lengths.{lengths_of, char_count, char_start, command_start, recipe_start, file_end};
ghost use Rattle.files.specs.Sections.{file_bytes, section_bytes, kern_byte, command_byte, char_byte};
ghost use Rattle.files.specs.Writing.{written_lengths, written_front, written_char, old_dimensions, joined_file};
ghost use Rattle.file_sections.specs.Fitting.{file_fits, file_in_front};

use file_chars::write_chars;
use file_lengths::{
    char_count, char_start, command_start, lengths_of, lengths_refusal, recipe_start,
};
use file_words::{copy_bytes, put_half, write_commands, write_words};
use files::FileLengths;

// How many words the file has, with n words of the lig/kern section and k kerns.
pub fn written_size(l: FileLengths, n: u32, k: u32) -> usize
    ensures { result ≡ (written_lengths l n k).lf }
{
    command_start(l) + (n as usize) + (k as usize) + (l.ne as usize) + (l.np as usize)
}

// The bytes of the old file from one place up to another, at a place of the new one.
fn copy_part(old: &[u8], from: usize, to: usize, out: &mut [u8], at: usize)
    requires { (from ≤ to) × ((to ≤ length old.now) × (at + (to - from) ≤ length out.old)) }
    ensures { out.new ≡ sets out.old at (file_bytes old.now from to) }
{
    copy_bytes(&old[from..to], &mut out[at..]);
}

// The characters' words at a place.
fn put_chars(old: &[u8], l: FileLengths, table: &[i32; 257], out: &mut [u8], at: usize)
    requires { at + 4 * char_count l ≤ length out.old }
    ensures { out.new ≡ sets out.old at
        (section_bytes (char_count l) (λ i. char_byte old.now
        (get_or table.now (l.bc + i) (negsuc 0)) (char_start l + i))) }
{
    write_chars(old, l, table, &mut out[at..]);
}

// The words of the lig/kern section at a place.
fn put_commands(program: &[i32], boundary: i32, out: &mut [u8], at: usize)
    requires { at + 4 * count program.now ≤ length out.old }
    ensures { out.new ≡ sets out.old at
        (section_bytes (count program.now) (command_byte program.now boundary)) }
{
    write_commands(program, boundary, &mut out[at..]);
}

// The kerns at a place.
fn put_kerns(kerns: &[i32], out: &mut [u8], at: usize)
    requires { at + 4 * length kerns.now ≤ length out.old }
    ensures { out.new ≡ sets out.old at
        (section_bytes (length kerns.now) (kern_byte kerns.now)) }
{
    write_words(kerns, &mut out[at..]);
}

// The lengths and the header.
fn write_front(old: &[u8], l: FileLengths, n: usize, k: usize, out: &mut [u8])
    requires { (length old.now ≡ 4 * file_end l) × (((written_lengths l n k).lf ≤ 32767)
        × (4 * (written_lengths l n k).lf ≤ length out.old)) }
    ensures { out.new ≡ sets out.old 0 (written_front old.now l n k) }
{
    put_half(out, 0, written_size(l, n as u32, k as u32) as u32);
    copy_part(old, 2, 16, out, 2);
    put_half(out, 16, n as u32);
    put_half(out, 18, k as u32);
    copy_part(old, 20, 4 * char_start(l), out, 20);
}

// The characters' words and the dimensions.
fn write_middle(old: &[u8], l: FileLengths, table: &[i32; 257], out: &mut [u8])
    requires { (length old.now ≡ 4 * file_end l) × (4 * command_start l ≤ length out.old) }
    ensures { out.new ≡ sets out.old (4 * char_start l)
        (section_bytes (char_count l) (written_char old.now l table.now)
        ++ old_dimensions old.now l) }
{
    let a = 4 * char_start(l);
    let b = 4 * (char_start(l) + char_count(l));
    put_chars(old, l, table, out, a);
    copy_part(old, b, 4 * command_start(l), out, b);
}

// The words of the lig/kern section, the kerns, the recipes and the parameters.
fn write_back(
    old: &[u8],
    l: FileLengths,
    program: &[i32],
    kerns: &[i32],
    boundary: i32,
    out: &mut [u8],
)
    requires { (length old.now ≡ 4 * file_end l)
        × (4 * (written_lengths l (count program.now) (length kerns.now)).lf ≤ length out.old) }
    ensures { out.new ≡ sets out.old (4 * command_start l)
        (section_bytes (count program.now) (command_byte program.now boundary)
        ++ section_bytes (length kerns.now) (kern_byte kerns.now)
        ++ drop (4 * recipe_start l) old.now) }
{
    let a = 4 * command_start(l);
    let b = a + 4 * (program.len() / 4);
    put_commands(program, boundary, out, a);
    put_kerns(kerns, out, b);
    copy_part(
        old,
        4 * recipe_start(l),
        old.len(),
        out,
        b + 4 * kerns.len(),
    );
}

// All parts, of a file that can be written.
fn join_file(
    old: &[u8],
    l: FileLengths,
    program: &[i32],
    kerns: &[i32],
    table: &[i32; 257],
    boundary: i32,
    out: &mut [u8],
)
    requires { (length old.now ≡ 4 * file_end l)
        × (((written_lengths l (count program.now) (length kerns.now)).lf ≤ 32767)
        × (4 * (written_lengths l (count program.now) (length kerns.now)).lf ≤ length out.old)) }
    ensures { out.new ≡ sets out.old 0
        (joined_file old.now l program.now kerns.now table.now
        boundary) }
{
    write_front(old, l, program.len() / 4, kerns.len(), out);
    write_middle(old, l, table, out);
    write_back(old, l, program, kerns, boundary, out);
}

// A file can be written: its lengths, with n words of the lig/kern section and k kerns, and the room for it.
fn file_fits(old: &[u8], l: FileLengths, n: usize, k: usize, room: usize) -> bool
    requires { l ≡ lengths_of old.now }
    ensures { result ≡ file_fits old.now n k room }
{
    if lengths_refusal(old) != 0 {
        return false;
    }
    if 32767 < n {
        return false;
    }
    if 32767 < k {
        return false;
    }
    let size = written_size(l, n as u32, k as u32);
    if 32767 < size {
        return false;
    }
    4 * size <= room
}

// The old file with the words of a packed program and its kerns, in front of what is lent; what can't be written is
// not.
pub fn write_file(
    old: &[u8],
    program: &[i32],
    kerns: &[i32],
    table: &[i32; 257],
    boundary: i32,
    out: &mut [u8],
)
    ensures { out.new ≡ file_in_front old.now program.now kerns.now
        table.now boundary out.old }
{
    let l = lengths_of(old);
    if file_fits(old, l, program.len() / 4, kerns.len(), out.len()) {
        join_file(old, l, program, kerns, table, boundary, out);
    }
}
