ghost use Rattle.std.specs.Prelude.{[], ◌∷◌};
ghost use Rattle.repairs.specs.Repairs.{damaged_of};
ghost use Rattle.c_repair_commit.specs.Committing.{HostCommits};

// Repairs a font, if the warnings handed over are those that asking would tell of it now. The existing characters are
// 256 bits: those from 0, 64, 128 and 192 on. Tells the repaired left entry in `left`. `found` and work are left zero.
#[unsafe(no_mangle)]
pub extern "C" fn ligkern_commit_repair(
    warnings: &[i32],
    instructions: &[i32],
    kerns: &[i32],
    entries: &[i32],
    boundary: i32,
    left_entry: i32,
    replacement: i32,
    from_0: u64,
    from_64: u64,
    from_128: u64,
    from_192: u64,
    passthrough: &[u8],
    fixed: &mut [i32],
    through: &mut [u8],
    found: &mut [i32],
    work: &mut [u32],
    left: &mut [i32],
) -> u32
    ensures { HostCommits
        (damaged_of instructions.now kerns.now entries.now boundary
        left_entry replacement (from_0 ∷ from_64 ∷ from_128 ∷ from_192 ∷ [])
        passthrough.now) warnings.now fixed.old through.old
        found.old work.old left.old result fixed.new through.new
        found.new work.new left.new }
{
    c_repair_commit::ligkern_commit_repair(
        warnings,
        instructions,
        kerns,
        entries,
        boundary,
        left_entry,
        replacement,
        from_0,
        from_64,
        from_128,
        from_192,
        passthrough,
        fixed,
        through,
        found,
        work,
        left,
    )
}
