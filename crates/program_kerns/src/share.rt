// Kern values shared: each stands once in the list of kerns. A value is found again by the bits of its word, the lowest
// first: the places are the nodes of a digital search tree, and `links` holds its root in slot 0, and what is left and
// right of place p in slots 2 p + 1 and 2 p + 2, each one more than the place, and 0 for none. Two values part at one
// of their 32 bits, so that a search compares at most 33 of them.
ghost use Rattle.std.specs.Prelude.{◌≡◌, ◌+◌, ◌<◌, ◌≤◌, length};
ghost use Rattle.words.specs.Words.{number_of};
ghost use Rattle.lang.specs.Records.{count};
ghost use Rattle.program_kerns.specs.Kerns.{kern_place};
ghost use Rattle.program_kerns.specs.Sharing.{Linked, SearchEnds, Gathered, Counted};

use lang::instruction::field_at;

// The slot at which the search for the value with these 32 bits ends: its link is that of the value, or 0 where the
// value is not there.
fn slot_of(kerns: &[i32], links: &[u16; 65536], word: u32) -> usize
    requires { Linked kerns.now links.now }
    ensures { SearchEnds kerns.now links.now word result }
{
    let mut slot = 0;
    let mut bit = 0u32;
    while links[slot] != 0 {
        let at = links[slot] as usize - 1;
        if words::i32s::word_at(kerns, at) == word {
            return slot;
        }
        slot = 2 * at + 1 + (word >> bit) as usize % 2;
        bit += 1;
    }
    slot
}

// The place of the value with these 32 bits; the list's length where it is not there.
pub(crate) fn place_of(kerns: &[i32], links: &[u16; 65536], word: u32) -> usize
    requires { Linked kerns.now links.now }
    ensures { result ≡ kern_place (number_of word) kerns.now }
{
    let slot = slot_of(kerns, links, word);
    let link = links[slot] as usize;
    if link == 0 {
        return kerns.len();
    }
    link - 1
}

// The value of instruction i, if it is a kern value, is added to the `m` kerns that are there, unless it is among them.
// Answers how many kerns there then are, one more than the list's length where it has no place left.
fn share_kern(
    instructions: &[i32],
    i: usize,
    kerns: &mut [i32],
    m: usize,
    links: &mut [u16; 65536],
) -> usize
    requires i_bound { i < 32767 }
    requires gathered { Gathered instructions.now i (length kerns.old) kerns.old links.old m }
    ensures { Counted instructions.now (i + 1) (length kerns.old)
        kerns.new links.new result }
{
    if field_at(instructions, i, 2) != 0 {
        return m;
    }
    let word = field_at(instructions, i, 3);
    let slot = slot_of(&kerns[..m], links, word);
    if links[slot] != 0 {
        return m;
    }
    words::i32s::put_word(kerns, m, word);
    links[slot] = (m + 1) as u16;
    m + 1
}

// The kern values of a program, each once, in the order in which they first appear, into a list of zeros. Answers how
// many there are; where the list has no place for them all, one more than its length.
pub(crate) fn gather(instructions: &[i32], kerns: &mut [i32], links: &mut [u16; 65536]) -> usize
    requires instructions_bound { count instructions.now ≤ 32767 }
    requires gathered { Gathered instructions.now 0 (length kerns.old) kerns.old links.old 0 }
    ensures { Counted instructions.now (count instructions.now)
        (length kerns.old) kerns.new links.new result }
{
    let mut m = 0;
    for i in 0..instructions.len() / 4 {
        m = share_kern(instructions, i, kerns, m, links);
        if kerns.len() < m {
            return m;
        }
    }
    m
}
