// Bytes and whole numbers put into a lent list of bytes from a place on. What passes the list's end is left off, and
// the place behind the end is answered.
//   bytes   a byte, a byte several times, a text        whole   a whole number
#![tactic(auto)]

pub mod bytes;
pub mod whole;
