// A font file read, for a host in C.
ghost use Rattle.std.specs.Prelude.{◌≡◌, [], ◌∷◌, ◌≤◌, length};
ghost use Rattle.std.proofs.lemmas.List.Edits.{sets};
ghost use Rattle.c_files.specs.Files.{fixed_refusal, TellsFont, HostDeserializes};

use c_values::lists::keep_list;
use file_reading::deserialize;
use files::Deserialized;
use program_checks::lower_of;
use program_limits::room_refusal;
use words::slices::zero_all;

// 15: fewer than two edges, or fewer than three counts.
fn fixed_refusal(edges: usize, counts: usize) -> u32
    ensures { result ≡ fixed_refusal edges counts }
{
    let first = room_refusal(2, edges);
    if first != 0 {
        return first;
    }
    room_refusal(3, counts)
}

// Three counts at the front of a list that has room for them.
fn put_counts(counts: &mut [u64], i: usize, k: usize, e: usize)
    requires { 3 ≤ length counts.old }
    ensures { counts.new ≡ sets counts.old 0 (i ∷ k ∷ e ∷ []) }
{
    counts[0] = i as u64;
    counts[1] = k as u64;
    counts[2] = e as u64;
}

// The edges and the counts of a font, or the number of a refusal.
fn tell_font(font: Deserialized, edges: &mut [i32], counts: &mut [u64]) -> u32
    ensures { TellsFont font edges.old counts.old result edges.new
        counts.new }
{
    zero_all(edges);
    zero_all(counts);
    let fixed = fixed_refusal(edges.len(), counts.len());
    match font {
        Deserialized::Refused(n) => lower_of(fixed, n),
        Deserialized::Font(i, k, e, boundary, left) => {
            if fixed != 0 {
                return fixed;
            }
            edges[0] = boundary;
            edges[1] = left;
            put_counts(counts, i, k, e);
            0
        }
    }
}

// The instructions (redirect flags unset), kerns and entries (still packed, by ascending character) of a font file.
// Tells the boundary character and the left entry, and how many instructions, kerns and entries there are.
#[unsafe(no_mangle)]
pub extern "C" fn ligkern_deserialize(
    file: &[u8],
    instructions: &mut [i32],
    kerns: &mut [i32],
    entries: &mut [i32],
    edges: &mut [i32],
    counts: &mut [u64],
) -> u32
    ensures { HostDeserializes file.now instructions.old kerns.old
        entries.old edges.old counts.old result instructions.new
        kerns.new entries.new edges.new counts.new }
{
    let font = deserialize(file, instructions, kerns, entries);
    let number = tell_font(font, edges, counts);
    keep_list(number, instructions);
    keep_list(number, kerns);
    keep_list(number, entries);
    number
}
