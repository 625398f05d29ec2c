// Files read into lent bytes, for the programs.
#![tactic(auto)]

ghost use Rattle.std.specs.Prelude.{◌≤◌, ◌<◌, length, take, OnOk, IfOk};
ghost use Rattle.std.specs.Io.KnownBytes.{Consumes, IsAtEnd};

use std::fs::File;
use std::io;
use std::io::Read;
use std::rt::Files;

// Reads until the space is full, the file ends or a read fails: how many bytes that gives, and how the reading ended. What was read stands at the
// front of the space. Ruled out: a program that gives more bytes than the space has, one that loses bytes where a later read fails, and one that
// takes a short read for the end of the file.
pub fn fill<R: Read>(file: &mut R, space: &mut [u8]) -> (usize, io::Result<()>)
    ensures within { result.0 ≤ length space.new }
    ensures bytes { Consumes (R.remaining file.old) (R.remaining file.new) (take result.0 space.new) }
    ensures end { OnOk result.1 (result.0 < length space.new → IsAtEnd (R.remaining file.new)) }
{
    let mut n = 0;
    // Stays: a read gives any number of bytes, so no range or iterator counts the place; the same with a rest of the space counts it back from lengths.
    while n < space.len() {
        match file.read(&mut space[n..]) {
            Ok(0) => break,
            Ok(more) => n += more,
            Err(e) => return (n, Err(e)),
        }
    }
    (n, Ok(()))
}

// Opens a file, and reads it as `fill` does. Ruled out: a program that counts a byte behind a full space, and one that counts a byte where the space
// has none.
pub fn read_file(
    rt: &impl Files,
    name: &str,
    space: &mut [u8],
) -> io::Result<(usize, io::Result<()>)>
    ensures { IfOk result (λ r. r.0 ≤ length space.new) }
{
    let mut file = File::open(rt, name)?;
    Ok(fill(&mut file, space))
}
