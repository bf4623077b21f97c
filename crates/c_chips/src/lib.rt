// A chip in a list of 91 numbers, for a host in C: definitions (specs/) and a law (proofs/Laws) alone. Crate
// `c_chip_read` reads it, and `c_chip_write` puts it there.
#![tactic(auto)]
