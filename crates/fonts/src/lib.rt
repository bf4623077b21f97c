// A font as it is lent, what its pairs become, and what compiling is held to: definitions (specs/) and what is proved
// of them (proofs/Theorems). The type that `compile` of crate `compile` answers with stands here too, since its
// contract does.

// What compiling answers: the pairs in the table, the ops and the loops, or the number of its refusal.
#![tactic(auto)]

#[derive(Clone, Copy)]
pub enum Compiled {
    Tables(usize, usize, usize),
    Refused(u32),
}
