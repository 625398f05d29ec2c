// The judging program: judges standard input by the rules of book.txt, and prints a line for each record. What it prints is made by crate report,
// which is proved; here bytes are only read and written.
#![tactic(auto)]

ghost use Rattle.std.specs.Prelude.{◌<◌, length, IfOk};

use reader::Reader;
use std::io::Read;
use std::rt::Files;
use table::flat::Table;

// One byte more than a book may have, so that a longer one is refused.
const BOOK_SPACE: usize = 65537;

// The work bytes: as many frames as there can be levels, 6,144 bytes.
const WORK: usize = Reader::FRAME * Reader::LEVELS;

// The bytes of one read, and of the lines that are printed at once.
const BLOCK: usize = 65536;

// The judging ends: the input does, or a call is refused, or the output cannot be written.
#[derive(Clone, Copy)]
struct Ended;

// The book in book.txt. One that cannot be read to its end counts as empty, which no book is.
fn read_book<'s>(rt: &impl Files, space: &'s mut [u8; BOOK_SPACE]) -> &'s [u8] {
    match lent_file::read_file(rt, "book.txt", space) {
        Ok((n, Ok(()))) => &space[..n],
        _ => &[],
    }
}

// Prints the first bytes of the output.
fn print(rt: &impl Print, out: &[u8], used: usize) -> Result<(), Ended> {
    let lines = out.get(..used).ok_or(Ended)?;
    rt.write_all(lines).map_err(|_| Ended)
}

// A stream under way: its reader, the table, and the bytes that are lent for its frames and its lines.
#[derive(Drop)]
struct Stream<'a> {
    reader: Reader,
    table: &'a Table,
    work: &'a mut [u8],
    out: &'a mut [u8],
}

impl Stream<'_> {
    // Reports what is unread of a piece, and prints its lines: what is unread then. A call that reads nothing was refused.
    fn judge_next<'p>(&mut self, rt: &impl Print, rest: &'p [u8]) -> Result<&'p [u8], Ended>
        ensures { IfOk result (λ r. length r.now < length rest.now) }
    {
        let x = report::report(&mut self.reader, self.table, self.work, rest, self.out);
        print(rt, self.out, x.used)?;
        if x.read == 0 || rest.len() < x.read {
            return Err(Ended);
        }
        Ok(&rest[x.read..])
    }

    // Reports a piece, and prints its lines as they come.
    fn judge_piece(&mut self, rt: &impl Print, piece: &[u8]) -> Result<(), Ended> {
        let mut rest = piece;
        while !rest.is_empty() {
            rest = self.judge_next(rt, rest)?;
        }
        Ok(())
    }

    // Reads what has arrived, and judges it. A read that fails is the end of the input.
    fn judge_some(
        &mut self,
        rt: &impl Print,
        input: &mut impl Read,
        space: &mut [u8],
    ) -> Result<(), Ended> {
        let count = input.read(space).unwrap_or(0);
        if count == 0 {
            return Err(Ended);
        }
        self.judge_piece(rt, &space[..count])
    }

    // A proved loop has to end, and nothing says that the input does: the loop counts its turns up to a number that no run reaches.
    fn judge_all(&mut self, rt: &(impl Input + Print), space: &mut [u8]) {
        let mut input = rt.reader();
        for _ in 0..u64::MAX {
            if self.judge_some(rt, &mut input, space).is_err() {
                return;
            }
        }
    }

    // The line of the last record.
    fn finish(self, rt: &impl Print) {
        let Stream {
            mut reader,
            table,
            work,
            out,
        } = self;
        let x = report::finish(&mut reader, table, work, out);
        let _ = print(rt, out, x.used);
    }
}

fn main(rt: HostRuntime) {
    let mut book = [0u8; BOOK_SPACE];
    let mut out = [0u8; BLOCK];
    let mut table = Table::empty();
    let begun = report::begin(read_book(&rt, &mut book), &mut table, &mut out);
    let _ = print(&rt, &out, begun.used);
    if begun.accepted {
        let mut work = [0u8; WORK];
        let mut space = [0u8; BLOCK];
        let started = Reader::start_with_answer(&table, &work);
        let mut stream = Stream {
            reader: started.reader,
            table: &table,
            work: &mut work,
            out: &mut out,
        };
        stream.judge_all(&rt, &mut space);
        stream.finish(&rt);
    }
}
