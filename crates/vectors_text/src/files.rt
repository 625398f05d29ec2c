// The files that data/names lists, each after an RS, under data/book.txt with 64 frames: judged in one piece, and again in pieces of 1, 2, 3 and 7
// bytes. A line for each verdict of a file, one more for each size of piece that has other entries, and in the end how many files are JSON.
ghost use Rattle.std.specs.Prelude.{◌≤◌, length};

use crate::WORK;
use crate::say::Entries;
use entries::feeds;
use std::io::ErrorKind;
use std::rt::Files;
use std::{io, str};
use table::flat::Table;

// More bytes than an RS and any file of data/ have.
const SPACE: usize = 262144;

// The bytes that are read of the book, and of the names.
const BLOCK: usize = 65536;

// The content of a file, as far as there is space. A file that cannot be opened counts as empty, and its name is said on standard error.
fn content(rt: &(impl Files + Eprint), path: &[u8], space: &mut [u8]) -> usize
    ensures { result ≤ length space.new }
{
    let name = str::from_utf8(path).map_err(|_| io::Error::from(ErrorKind::InvalidInput));
    match name.and_then(|name| lent_file::read_file(rt, name, space)) {
        Ok((n, _)) => n,
        Err(e) => {
            let name = str::from_utf8(path).unwrap_or("");
            let _ = eprintln!(rt; "{name}: {e}");
            0
        }
    }
}

// The entries of a stream that is cut into pieces of a size, or of none where that is 0.
fn judge(table: &Table, stream: &[u8], size: usize) -> Entries {
    let mut work = [0u8; WORK];
    let mut entries = Entries::none();
    entries.made = feeds::judge(table, stream, size, &mut work, &mut entries.out);
    entries
}

// The stream of a file: whether the file is JSON. Says where pieces lead to other entries than the whole.
fn run_stream(rt: &impl Print, table: &Table, name: &[u8], stream: &[u8]) -> bool {
    let whole = judge(table, stream, 0);
    whole.say(rt, name);
    for size in [1, 2, 3, 7] {
        let cut = judge(table, stream, size);
        if cut != whole {
            let _ = print!(rt; "in pieces of {size}: ");
            cut.say(rt, name);
        }
    }
    whole.is_json()
}

// One file, after the first byte of the space, which is an RS: whether the file is JSON.
fn run_file(
    rt: &(impl Files + Print + Eprint),
    table: &Table,
    name: &[u8],
    space: &mut [u8; SPACE],
) -> bool {
    let n = content(rt, name, &mut space[1..]);
    run_stream(rt, table, name, &space[..n + 1])
}

// How many files are JSON, and how many are not.
#[derive(Clone, Copy, Default)]
struct Count {
    json: u32,
    not: u32,
}

impl Count {
    fn add(&mut self, json: bool) {
        let n = if json { &mut self.json } else { &mut self.not };
        *n = n.wrapping_add(1);
    }

    fn all(self) -> u32 {
        self.json.wrapping_add(self.not)
    }
}

// The files by the first letter of their names: y has to be JSON, n must not be, any other may.
#[derive(Clone, Copy, Default)]
struct Counts {
    yes: Count,
    no: Count,
    either: Count,
}

impl Counts {
    fn add(&mut self, name: &[u8], json: bool) {
        match name.first() {
            Some(b'y') => self.yes.add(json),
            Some(b'n') => self.no.add(json),
            _ => self.either.add(json),
        }
    }

    fn say(self, rt: &impl Print) {
        let _ = println!(rt; "y_ JSON {} of {}", self.yes.json, self.yes.all());
        let _ = println!(rt; "n_ not JSON {} of {}", self.no.not, self.no.all());
        let _ = println!(rt; "i_ JSON {} and not {}", self.either.json, self.either.not);
    }
}

// Each file that has a line in names.
fn run_names(rt: &(impl Files + Print + Eprint), table: &Table, names: &[u8]) -> Counts {
    let mut counts = Counts::default();
    let mut space = [30u8; SPACE];
    let mut rest = names;
    while let Some(end) = rest.iter().position(|b| *b == b'\n') {
        let name = &rest[..end];
        counts.add(name, run_file(rt, table, name, &mut space));
        rest = &rest[end + 1..];
    }
    counts
}

// All of them, and then how many are JSON.
pub fn run(rt: &(impl Files + Print + Eprint)) {
    let mut table = Table::empty();
    let mut space = [0u8; BLOCK];
    let n = content(rt, b"book.txt", &mut space);
    let _ = load::load(&space[..n], &mut table);
    let n = content(rt, b"names", &mut space);
    run_names(rt, &table, &space[..n]).say(rt);
}
