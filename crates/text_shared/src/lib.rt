// A column text read, and its kern values shared: these, and indices past the K lines, become indices to kerns that
// stand once. A text has 512 K lines and 512 instructions at most, so there is room for 1,024 kerns.
#![tactic(auto)]

ghost use Rattle.std.specs.Prelude.{◌≡◌, ◌++◌, ◌≤◌, length, take, drop};
ghost use Rattle.columns.specs.Scanned.{ReadsShared};
ghost use Rattle.text_shared.specs.Fronts.{SharesFront, SharesText, heads_with};

use columns::TextHeads;
use kern_share::share_kerns;
use text_lists::line_kerns;
use text_scan::read_text;
use words::i32s::{put_word, word_at};
use words::slices::zero_all;

// The first k numbers of a list copied to the front of another. `copy_from_slice` would be a call of memmove here,
// which no host in C is asked for (c/ligcols.h).
fn copy_front(from: &[i32], k: usize, to: &mut [i32])
    requires { (k ≤ length from.now) × (k ≤ length to.old) }
    ensures { to.new ≡ take k from.now ++ drop k to.old }
{
    for j in 0..k {
        put_word(to, j, word_at(from, j));
    }
}

// The heads of a text with so many kerns.
fn with_kerns(heads: TextHeads, kerns: usize) -> TextHeads
    ensures { result ≡ heads_with heads kerns }
{
    TextHeads {
        design: heads.design,
        boundary: heads.boundary,
        left: heads.left,
        instructions: heads.instructions,
        kerns,
        entries: heads.entries,
        letters: heads.letters,
    }
}

// The kern values of the program in the first n numbers, shared; the first k kerns are its own.
fn share_front(instructions: &mut [i32], n: usize, kerns: &mut [i32], k: usize) -> usize
    requires { n ≤ length instructions.old }
    ensures { SharesFront instructions.old n kerns.old k result instructions.new
        kerns.new }
{
    share_kerns(&mut instructions[..n], kerns, k)
}

// What a text says, i numbers of instructions and k kerns of its own, with its kern values shared in place. Answers how
// many kerns there are then. Over 2,048 numbers or 512 kerns are no text's: nothing is shared.
pub fn share_text(
    i: usize,
    k: usize,
    instructions: &mut [i32; 2048],
    own: &[i32; 512],
    kerns: &mut [i32; 1024],
) -> usize
    ensures { SharesText i k instructions.old own.now result instructions.new
        kerns.new }
{
    zero_all(kerns);
    if 2048 < i || 512 < k {
        return 0;
    }
    copy_front(own, k, kerns);
    share_front(instructions, i, kerns, k)
}

// A text read, with its kern values shared; or none (16), and zeros.
pub fn read_shared(
    text: &[u8],
    instructions: &mut [i32; 2048],
    kerns: &mut [i32; 1024],
    entries: &mut [i32; 5040],
    word: &mut [u32; 64],
) -> Option<TextHeads>
    ensures { ReadsShared text.now result instructions.new kerns.new
        entries.new word.new }
{
    let mut own = line_kerns();
    let Some(heads) = read_text(text, instructions, &mut own, entries, word) else {
        zero_all(kerns);
        return None;
    };
    let m = share_text(heads.instructions, heads.kerns, instructions, &own, kerns);
    Some(with_kerns(heads, m))
}
