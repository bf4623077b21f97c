// The two forms that take structs, beside those that they agree with: a small font is walked over its records and
// over its numbers, and a word is set by a reader that keeps it and by steps. Two lines each, which are equal but for
// their first word.
//   font     the font, as records and as numbers
//   chains   the chain of an entry, and the rules of two right characters
//   caption  a word in the compiled font
//   print    what the lines are made of
#![tactic(auto)]

mod caption;
mod chains;
mod font;
mod print;

fn main(rt: HostRuntime) {
    chains::both(&rt);
    caption::both(&rt);
}
