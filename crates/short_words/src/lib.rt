// Every word of at most four letters of a set of characters. Types, definitions (specs/) and theorems (proofs/Theorems)
// alone: crate `short_word_next` finds the next word, and `short_word_set` sets it.

// A word of at most four letters; what stands past its length is 0.
#![tactic(auto)]

#[derive(Clone, Copy)]
pub struct ShortWord {
    pub length: usize,
    pub letters: [u32; 4],
}

// There is a next word, the word handed in was the last, or it was refused.
#[derive(Clone, Copy)]
pub enum NextAnswer {
    Word,
    End,
    Refused(u32),
}

// The next word; no letters at the end or after a refusal.
#[derive(Clone, Copy)]
pub struct NextWord {
    pub answer: NextAnswer,
    pub word: ShortWord,
}

// The same, with how many items the word has.
#[derive(Clone, Copy)]
pub struct SetNext {
    pub answer: NextAnswer,
    pub word: ShortWord,
    pub count: usize,
}
