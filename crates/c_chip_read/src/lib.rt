// A chip that stands in a list of 91 numbers, for a host in C: whether some command leaves such a one, and what is
// refused before a command is looked at. No chip is built for it.
#![tactic(auto)]

ghost use Rattle.std.specs.Prelude.{◌≡◌, ◌≤◌, leb, length, get_or};
ghost use Rattle.lang.specs.Every.{both, every};
ghost use Rattle.chips.specs.Commands.{item_stands, open_stands};
ghost use Rattle.c_chips.specs.ChipLists.{is_word, is_shown, shown_at, chip_at, chip_read, after_early};
ghost use Rattle.c_chip_read.specs.Standing.{byte_letters, callers_stand, list_stands};

use c_states::states::{flag_of, is_state};
use program_checks::absent_refusal;

// Every number is one of 32 bits. They are or-ed together, since 4,294,967,295 is all of the low 32.
fn are_words(codes: &[u64]) -> bool
    ensures { result ≡ every (length codes.now) (λ i. is_word (get_or codes.now i 0)) }
{
    let mut all: u64 = 0;
    for code in codes {
        all |= *code;
    }
    all <= 4294967295
}

// Every number is a byte, in the same way.
fn are_bytes(codes: &[u64]) -> bool
    ensures { result ≡ every (length codes.now) (λ i. leb (get_or codes.now i 0) 255) }
{
    let mut all: u64 = 0;
    for code in codes {
        all |= *code;
    }
    all <= 255
}

// The letters of a word, which no more than 64 are, are bytes.
fn letters_stand(list: &[u64]) -> bool
    requires { 91 ≤ length list.now }
    ensures { result ≡ byte_letters list.now }
{
    let n = list[1];
    if 64 < n {
        return false;
    }
    let end = 18 + (n as usize);
    are_bytes(&list[18..end])
}

// The caller, and the counts of all eight.
fn callers_stand(list: &[u64]) -> bool
    requires { 91 ≤ length list.now }
    ensures { result ≡ callers_stand list.now }
{
    if 7 < list[90] {
        return false;
    }
    are_words(&list[82..90])
}

// The seven numbers of an item.
fn is_shown(list: &[u64]) -> bool
    requires { 91 ≤ length list.now }
    ensures { result ≡ is_shown list.now }
{
    if 1 < list[2] {
        return false;
    }
    if 2 < list[3] {
        return false;
    }
    if 4294967295 < list[4] {
        return false;
    }
    if 1 < list[7] {
        return false;
    }
    list[8] <= 1
}

// No original of more than 64 letters.
fn item_stands(list: &[u64]) -> bool
    requires { 91 ≤ length list.now }
    ensures { result ≡ item_stands (shown_at list.now) }
{
    if !flag_of(list[2]) {
        return true;
    }
    match list[3] {
        1 => list[6] <= 64,
        _ => true,
    }
}

// An open word has no item ready, and can be counted for its caller.
fn open_stands(list: &[u64]) -> bool
    requires { (91 ≤ length list.now) × (get_or list.now 90 0 ≤ 7) }
    ensures { result ≡ open_stands (chip_at list.now) }
{
    if !flag_of(list[0]) {
        return true;
    }
    if flag_of(list[2]) {
        return false;
    }
    let caller = list[90] as usize;
    list[82 + caller] < 4294967295
}

// The item and the open word, where the caller stands.
fn late_stands(list: &[u64]) -> bool
    requires { 91 ≤ length list.now }
    ensures { result ≡ both (callers_stand list.now)
        (both (item_stands (shown_at list.now)) (open_stands (chip_at list.now))) }
{
    if !callers_stand(list) {
        return false;
    }
    if !item_stands(list) {
        return false;
    }
    open_stands(list)
}

// Whether the first 91 numbers of a list are a chip's that some command leaves.
fn stands(list: &[u64]) -> bool
    ensures { result ≡ list_stands list.now }
{
    if list.len() < 91 {
        return false;
    }
    if 1 < list[0] {
        return false;
    }
    if !is_shown(list) {
        return false;
    }
    if !is_state(&list[9..]) {
        return false;
    }
    if !letters_stand(list) {
        return false;
    }
    late_stands(list)
}

// 4, 7 of the chip that stands in a list or 15 of the block's length, the lowest that holds.
pub fn list_refusal(boundary: i32, list: &[u64], bytes: usize) -> u32
    ensures { result ≡ after_early boundary (chip_read list.now) bytes 0 }
{
    let edge = absent_refusal(255, boundary);
    if edge != 0 {
        return edge;
    }
    if !stands(list) {
        return 7;
    }
    if bytes < 16 { 15 } else { 0 }
}
