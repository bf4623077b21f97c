// Lists of requests and answers about font files, written as runs (tools/files).
//   runs     lists as runs
//   bytes    files as numbers
//   rooms    the lists that are lent
#![tactic(auto)]

pub mod bytes;
pub mod rooms;
pub mod runs;
