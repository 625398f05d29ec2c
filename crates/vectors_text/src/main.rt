// Judges the published JSON vectors of data/, and then records of around 16,777,216 bytes and of around 64 levels that it makes itself, and
// writes a line for each verdict: VECTORS.md says where the files come from, what the records are and how `stdout` is made.
#![tactic(auto)]

mod files; // files.rt: the files of data/
mod limits; // limits.rt: the records around the limits
mod long; // long.rt: records of many bytes
mod nest; // nest.rt: records of many levels
mod say; // say.rt: entries on lines

use reader::Reader;

// The bytes of as many frames as there can be levels.
pub const WORK: usize = Reader::FRAME * Reader::LEVELS;

fn main(rt: HostRuntime) {
    files::run(&rt);
    limits::run(&rt);
}
