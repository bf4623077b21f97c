ghost use Rattle.removals.specs.Removed.{font_at, size_number};
ghost use Rattle.c_states.specs.States.{options_of};
ghost use Rattle.c_blame.specs.Blaming.{font_numbers_of, BlamesForHost};

// The lowest instruction whose removal alone alters the items of a word. The six lists from pairs to work are work, and
// left zero.
#[unsafe(no_mangle)]
pub extern "C" fn ligkern_blamed_instruction(
    instructions: &[i32],
    kerns: &[i32],
    entries: &[i32],
    boundary: i32,
    left_entry: i32,
    design_size: i32,
    size: i32,
    magnification: i32,
    word: &[u32],
    disable_left_boundary: bool,
    right_boundary_override: i32,
    pairs: &mut [i32],
    ops: &mut [i32],
    pairs_without: &mut [i32],
    ops_without: &mut [i32],
    edited: &mut [i32],
    work: &mut [u32],
    values: &mut [u64],
) -> u32
    ensures { BlamesForHost
        (font_at instructions.now kerns.now entries.now
        (font_numbers_of boundary left_entry design_size size magnification))
        (size_number (font_numbers_of boundary left_entry design_size size magnification)) word.now
        (options_of disable_left_boundary right_boundary_override) pairs.old ops.old
        pairs_without.old ops_without.old edited.old work.old
        values.old result pairs.new ops.new pairs_without.new
        ops_without.new edited.new work.new values.new }
{
    c_blame::ligkern_blamed_instruction(
        instructions,
        kerns,
        entries,
        boundary,
        left_entry,
        design_size,
        size,
        magnification,
        word,
        disable_left_boundary,
        right_boundary_override,
        pairs,
        ops,
        pairs_without,
        ops_without,
        edited,
        work,
        values,
    )
}
