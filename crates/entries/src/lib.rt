// A stream from the start to the close, fed piece by piece, and what its calls answer as entries of 16 bytes in a lent output: docs/LIBRARY.md.
#![tactic(auto)]

pub mod entry; // entry.rt: the bytes of an entry
pub mod feeds; // feeds.rt: a stream from the start to the close
