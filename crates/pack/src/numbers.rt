// The numbers of packing: one that may be absent, a label's place, and the four numbers of a redirect.
// PLtoTF 141 and 142; ligkern/lang.rs, `pack_entrypoints` (lines 555 to 605).
ghost use Rattle.std.specs.Prelude.{◌≡◌, [], ◌∷◌, pos, negsuc, get_or};
ghost use Rattle.std.specs.Int.Signed.{non_neg};
ghost use Rattle.words.specs.Words.{number_of};
ghost use Rattle.pack.specs.Packing.{place_among, left_or};

// A number that is there, and not -1; it is given by its 32 bits.
pub(crate) fn is_present(word: u32) -> bool
    ensures { result ≡ non_neg (number_of word) }
{
    word < 2147483648
}

// The number, or 0 where it is not there.
pub(crate) fn present_or_zero(word: u32) -> u32
    ensures { result ≡ left_or (number_of word) }
{
    if word < 2147483648 { word } else { 0 }
}

// The place of label e; the count of labels where it is none of them.
pub(crate) fn place_among(labels: &[u32], e: u32) -> usize
    ensures { result ≡ place_among e labels.now }
{
    for (p, label) in labels.iter().enumerate() {
        if *label == e {
            return p;
        }
    }
    labels.len()
}

// Number m of a redirect: no next, the right character, kind 3 and the operand; 0 past these.
pub(crate) fn redirect_number(m: usize, right: u32, operand: u32) -> u32
    ensures { number_of result ≡ get_or (negsuc 0 ∷ number_of right ∷ pos 3 ∷ number_of operand ∷ []) m
        (pos 0) }
{
    if m == 0 {
        return 4294967295;
    }
    if m == 1 {
        return right;
    }
    if m == 2 {
        return 3;
    }
    if m == 3 { operand } else { 0 }
}
