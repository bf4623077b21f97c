// One warning of repair, four numbers, written after those that are there already.
#![tactic(auto)]

ghost use Rattle.std.specs.Prelude.{ltb};
ghost use Rattle.words.specs.Words.{number_of};
ghost use Rattle.lang.specs.Every.{both};
ghost use Rattle.repairs.specs.Warnings.{warning, warn_if};
ghost use Rattle.repairs.specs.Pushed.{Pushed};

// Where the test holds, one warning more after n others: its kind, and three numbers by their 32 bits. What passes the
// end of the list is left off. Answers how many warnings there are then; a count of 2^32 stays.
pub fn push_if(
    test: bool,
    warnings: &mut [i32],
    n: usize,
    kind: u8,
    at: u32,
    old: u32,
    new: u32,
) -> usize
    ensures { Pushed warnings.old n
        (warn_if (both test (ltb n 4294967296)) (warning kind (number_of at) (number_of old) (number_of new)))
        warnings.new result }
{
    if !test {
        return n;
    }
    if 4294967295 < n {
        return n;
    }
    words::i32s::put_word(warnings, 4 * n, kind as u32);
    words::i32s::put_word(warnings, 4 * n + 1, at);
    words::i32s::put_word(warnings, 4 * n + 2, old);
    words::i32s::put_word(warnings, 4 * n + 3, new);
    n + 1
}
