ghost use Rattle.c_states.specs.States.{options_of};
ghost use Rattle.c_steps.specs.Step.{StepsBy};
ghost use Rattle.c_step_indexed.specs.Indexed.{indexed_step_in};

// One step by the index: 1 and the six numbers of its item, or zeros at the end; the next state in place of the last. A
// refused step leaves the state as it was. A step's numbers, with 7 for numbers that are no state and where the index
// says a place at which the pair does not stand; 15 where the item has no room comes before 20.
#[unsafe(no_mangle)]
pub extern "C" fn ligkern_step_indexed(
    index: &[u64],
    pairs: &[i32],
    ops: &[i32],
    boundary: i32,
    word: &[u32],
    disable_left_boundary: bool,
    right_boundary_override: i32,
    state: &mut [u64],
    item: &mut [i32],
) -> u32
    ensures { StepsBy
        (indexed_step_in index.now pairs.now ops.now boundary
        word.now (options_of disable_left_boundary right_boundary_override)
        state.old) state.old item.old result state.new
        item.new }
{
    c_step_indexed::ligkern_step_indexed(
        index,
        pairs,
        ops,
        boundary,
        word,
        disable_left_boundary,
        right_boundary_override,
        state,
        item,
    )
}
