// The rule of a pair of a font as it is lent: its operation with the inserted character, its scaled kern, or none.
#![tactic(auto)]

ghost use Rattle.std.specs.Prelude.{◌≡◌, ℤ};
ghost use Rattle.words.specs.Words.{Word};
ghost use Rattle.lang.specs.Entries.{entries_table};
ghost use Rattle.tfm.specs.Scaled.{to_scaled};
ghost use Rattle.fonts.specs.Fonts.{font_of, left_entry_of, scaled_kern, rule_of_operation, rules_of};
ghost use Rattle.read_rule.specs.Meant.{meant, left_as};

use lang::entries::{entries_table, entry_at};
use lang::operation::{Operation, PostLigOperation};
use program_chain::{operation_at, rule_index};
use tfm::FixWord;

// What the font says of a pair: nothing; a kern, by the 32 bits of its scaled value; or a ligature operation, and the
// character that it inserts.
#[derive(Clone, Copy)]
pub enum PairRule {
    Free,
    Kern(u32),
    Ligature(PostLigOperation, u8),
}

// The entry of a left, the boundary or a character, as its 32 bits.
fn entry_of(entries: &[i32], left_entry: i32, boundary: bool, left: u8) -> u32
    ensures { Word (left_entry_of (entries_table entries.now left_entry) (left_as boundary left)) result }
{
    let table = entries_table(entries, left_entry);
    if boundary {
        return entry_at(&table, 256);
    }
    entry_at(&table, left as usize)
}

// A kern at a design size; one that does not scale is a kern of zero.
fn kern_rule(kern: FixWord, design_size: i32) -> PairRule
    ensures { meant result ≡ scaled_kern (to_scaled kern.0 design_size) }
{
    match kern.at_design_size(FixWord(design_size)) {
        Ok(v) => PairRule::Kern(words::word_of(v)),
        Err(_) => PairRule::Kern(0),
    }
}

// What an operation does at a design size, as a rule.
fn rule_of(operation: Operation, design_size: i32) -> PairRule
    ensures { meant result ≡ rule_of_operation design_size operation }
{
    match operation {
        Operation::Kern(kern) => kern_rule(kern, design_size),
        Operation::Ligature {
            char_to_insert,
            post_lig_operation,
            post_lig_tag_invalid: _,
        } => PairRule::Ligature(post_lig_operation, char_to_insert.0),
        _ => PairRule::Free,
    }
}

// The rule of a left, the boundary or a character, and a right character.
pub fn pair_rule(
    instructions: &[i32],
    kerns: &[i32],
    entries: &[i32],
    left_entry: i32,
    design_size: i32,
    boundary: bool,
    left: u8,
    right: u8,
) -> PairRule
    ensures { (b : ℤ) → meant result ≡ rules_of
        (font_of instructions.now kerns.now entries.now b left_entry
        design_size) (left_as boundary left) right }
{
    let entry = entry_of(entries, left_entry, boundary, left);
    if 2147483648 <= entry {
        return PairRule::Free;
    }
    match rule_index(instructions, entry as usize, right) {
        None => PairRule::Free,
        Some(i) => rule_of(operation_at(instructions, kerns, i), design_size),
    }
}
