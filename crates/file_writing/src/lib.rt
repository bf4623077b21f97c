// Another lig/kern program in the middle of a font file (TeX 539 to 545, PLtoTF 142): the font is packed, then the
// numbers are asked, then the file is joined.
#![tactic(auto)]

ghost use Rattle.std.specs.Prelude.{◌≡◌, ◌*◌, length, replicate};
ghost use Rattle.lang.specs.Checks.{or_else};
ghost use Rattle.lang.specs.Answers.{room_refusal};
ghost use Rattle.files.specs.Lengths.{lengths_refusal};
ghost use Rattle.files.specs.Writing.{writable, writable_refusal, written_size, ReplacesProgram};
ghost use Rattle.file_writing.specs.Holding.{Holds};

use file_checks::writable_refusal;
use file_lengths::{lengths_of, lengths_refusal};
use file_packing::pack_font;
use file_sections::{write_file, written_size};
use files::PackedFont;
use lang::Written;
use lang::entries::entries_table;
use program_limits::room_refusal;
use words::slices::zero_all;

// Room for any font's packed instructions, for its kerns, and for its entries.
fn program_list() -> [i32; 132096]
    ensures { 132096 ≡ length result }
{
    [0; 132096]
}

fn kern_list() -> [i32; 32767]
    ensures { 32767 ≡ length result }
{
    [0; 32767]
}

fn entry_list() -> [i32; 512]
    ensures { 512 ≡ length result }
{
    [0; 512]
}

// 17, 18 or 15, of a font that packing takes: it has so many words of the lig/kern section and so many kerns.
fn file_refusal(
    old: &[u8],
    instructions: &[i32],
    kerns: &[i32],
    entries: &[i32],
    boundary: i32,
    left_entry: i32,
    n: usize,
    k: usize,
    room: usize,
) -> u32
    ensures { result ≡ or_else (lengths_refusal old.now)
        (or_else (writable_refusal old.now
        (writable instructions.now kerns.now entries.now boundary left_entry) n k)
        (room_refusal (4 * written_size old.now n k) room)) }
{
    let lengths = lengths_refusal(old);
    let font = writable_refusal(
        old,
        instructions,
        kerns,
        entries,
        boundary,
        left_entry,
        n,
        k,
    );
    if lengths != 0 {
        return lengths;
    }
    if font != 0 {
        return font;
    }
    room_refusal(4 * written_size(lengths_of(old), n as u32, k as u32), room)
}

// The file of a font that is packed, into zeros: what is packed stands at the front of three lists.
fn write_packed(
    old: &[u8],
    instructions: &[i32],
    kerns: &[i32],
    entries: &[i32],
    boundary: i32,
    left_entry: i32,
    program: &[i32],
    shared: &[i32],
    packed: &[i32],
    n: usize,
    k: usize,
    out: &mut [u8],
) -> Written
    requires holds { Holds (writable instructions.now kerns.now entries.now boundary left_entry) program.now
        shared.now packed.now n k }
    requires out_value { out.old ≡ replicate (length out.old) 0 }
    ensures { ReplacesProgram old.now
        (writable instructions.now kerns.now entries.now boundary left_entry)
        out.old result out.new }
{
    let refusal = file_refusal(
        old,
        instructions,
        kerns,
        entries,
        boundary,
        left_entry,
        n,
        k,
        out.len(),
    );
    if refusal != 0 {
        return Written::Refused(refusal);
    }
    let table = entries_table(&packed[..entries.len()], -1);
    write_file(old, &program[..4 * n], &shared[..k], &table, boundary, out);
    Written::Count(4 * written_size(lengths_of(old), n as u32, k as u32))
}

// The file with the font's program in the place of its own: the number of its bytes, or the number of a refusal.
pub fn replace_lig_kern_program(
    old: &[u8],
    instructions: &[i32],
    kerns: &[i32],
    entries: &[i32],
    boundary: i32,
    left_entry: i32,
    out: &mut [u8],
) -> Written
    ensures { ReplacesProgram old.now
        (writable instructions.now kerns.now entries.now boundary left_entry)
        out.old result out.new }
{
    zero_all(out);
    let mut program = program_list();
    let mut shared = kern_list();
    let mut packed = entry_list();
    match pack_font(
        instructions,
        kerns,
        entries,
        boundary,
        left_entry,
        &mut program,
        &mut shared,
        &mut packed,
    ) {
        PackedFont::Refused(number) => Written::Refused(number),
        PackedFont::Sizes(n, k) => write_packed(
            old,
            instructions,
            kerns,
            entries,
            boundary,
            left_entry,
            &program,
            &shared,
            &packed,
            n,
            k,
            out,
        ),
    }
}
