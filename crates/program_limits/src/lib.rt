// The refusals 3, 4, 5 and 15 (R232 to R234, R244) of what is lent beside the program: kerns, entries, passthrough, a
// design size and a list's room. Each is a function whose result is the number where it holds and 0 where it does not.
// Every one is linear in what it is lent.
#![tactic(auto)]

ghost use Rattle.std.specs.Prelude.{◌≡◌, ◌<◌, ◌/◌, eqb, length, get_or};
ghost use Rattle.lang.specs.Every.{both};
ghost use Rattle.lang.specs.Records.{within};
ghost use Rattle.lang.specs.Checks.{kerns_refusal, char_at, entry_at, entries_refusal, passthrough_refusal};
ghost use Rattle.lang.specs.Checks.{design_refusal};
ghost use Rattle.lang.specs.Answers.{room_refusal};
ghost use Rattle.words.specs.Words.{word_of};

// 3: over 32,767 kerns.
pub fn kerns_refusal(kerns: &[i32]) -> u32
    ensures { result ≡ kerns_refusal kerns.now }
{
    if kerns.len() <= 32767 { 0 } else { 3 }
}

// The entry at place i is in range, and its character has not been seen.
fn entry_fits(limit: u16, entries: &[i32], i: usize, seen: &[u8; 256]) -> bool
    requires { i < length entries.now / 2 }
    ensures { result ≡ both (within 255 (char_at entries.now i))
        (both (within limit (entry_at entries.now i))
        (eqb (get_or seen.now (word_of (char_at entries.now i)) 0) 0)) }
{
    let c = words::i32s::word_at(entries, 2 * i);
    if 255 < c {
        return false;
    }
    let entry = words::i32s::word_at(entries, 2 * i + 1);
    if (limit as u32) < entry {
        return false;
    }
    let place = c as usize;
    seen[place] == 0
}

// 4: entry numbers not in twos, a character or an entry (0 to limit) out of range, a character entered twice.
pub fn entries_refusal(limit: u16, entries: &[i32]) -> u32
    ensures { result ≡ entries_refusal limit entries.now }
{
    if entries.len() % 2 != 0 {
        return 4;
    }
    let mut seen = [0u8; 256];
    for i in 0..entries.len() / 2 {
        if !entry_fits(limit, entries, i, &seen) {
            return 4;
        }
        let c = words::i32s::word_at(entries, 2 * i) as usize;
        seen[c] = 1;
    }
    0
}

// 4: passthrough of another length than one byte an instruction.
pub fn passthrough_refusal(passthrough: &[u8], instructions: &[i32]) -> u32
    ensures { result ≡ passthrough_refusal passthrough.now instructions.now }
{
    if passthrough.len() == instructions.len() / 4 {
        0
    } else {
        4
    }
}

// 5: design size negative.
pub fn design_refusal(design_size: i32) -> u32
    ensures { result ≡ design_refusal design_size }
{
    if design_size < 0 { 5 } else { 0 }
}

// 15: a list of `room` places is too short for an answer that needs `needed`.
pub fn room_refusal(needed: usize, room: usize) -> u32
    ensures { result ≡ room_refusal needed room }
{
    if needed <= room { 0 } else { 15 }
}
