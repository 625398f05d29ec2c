// The table of a rule book: what load makes of a book, in 7,920 bytes.
#![tactic(auto)]

pub mod bits; // bits.rt: bits of bytes
pub mod flat; // flat.rt: a table, its reads and writes
pub mod keys; // keys.rt: the number of a key
pub mod kind; // kind.rt: value kinds, and which finished value fits which
pub mod limits; // limits.rt: the limits of a table's counts
