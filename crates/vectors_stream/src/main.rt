// Makes the calls of data/calls, one after the other, and writes what each answers: CALLS.md says how a call is written.
#![tactic(auto)]

use reader::{Answer, Reader};
use table::flat::Table;
use verdict::Verdict;

// The count of bytes read, and a verdict or refusal with number and place.
fn say(rt: &impl Print, count: usize, word: &str, number: u8) {
    let _ = println!(rt; "{count} {word} {number} 0");
}

// The count, and the line that the judging program writes for a verdict.
fn say_verdict(rt: &impl Print, count: usize, v: Verdict) {
    let mut line = [0u8; 64];
    let n = text::write(&mut line, 0, v);
    let _ = print!(rt; "{count} ");
    if n <= line.len() {
        let _ = rt.write_all(&line[..n]);
    }
}

fn say_answer(rt: &impl Print, count: usize, a: Answer) {
    match a {
        Ok(None) => say(rt, count, "none", 0),
        Ok(Some(v)) => say_verdict(rt, count, v),
        Err(r) => say(rt, count, "call", r.number()),
    }
}

// What the calls share: the reader, the table, the buffer, and how many of its bytes are lent.
#[derive(Drop)]
struct Calls<'a> {
    reader: Reader,
    table: &'a mut Table,
    buffer: &'a mut [u8],
    size: usize,
}

impl Calls<'_> {
    // Starts on the bytes that are lent.
    fn start(&mut self, rt: &impl Print) {
        let Some(work) = self.buffer.get_mut(..self.size) else {
            return;
        };
        let started = Reader::start_with_answer(self.table, work);
        self.reader = started.reader;
        say_answer(rt, 0, started.answer);
    }

    fn feed(&mut self, rt: &impl Print, piece: &[u8]) {
        let Some(work) = self.buffer.get_mut(..self.size) else {
            return;
        };
        match self.reader.feed(self.table, work, piece) {
            Ok(fed) => say_answer(rt, fed.count, Ok(fed.verdict)),
            Err(refusal) => say_answer(rt, 0, Err(refusal)),
        }
    }

    // Closes, and writes the reader's tally.
    fn close(&mut self, rt: &impl Print) {
        let Some(work) = self.buffer.get_mut(..self.size) else {
            return;
        };
        let answer = self.reader.close(self.table, work);
        say_answer(rt, 0, answer);
        let y = self.reader.tally;
        let _ = println!(rt; "tally {} {} {}", y.valid, y.invalid, y.refused);
    }

    // Gives the table a count of edges, in two bytes.
    fn set_edges(&mut self, low: u8, high: u8) {
        let mut bytes = *self.table.bytes();
        bytes[0] = low;
        bytes[1] = high;
        *self.table = Table::from(bytes);
    }

    // One call, by its letter in CALLS.md; any other than those is a close.
    fn call(&mut self, rt: &impl Print, op: u8, n: u16, piece: &[u8]) {
        let [low, high] = n.to_le_bytes();
        match op {
            b'b' => {
                let _ = load::load(piece, self.table);
            }
            b'e' => self.set_edges(low, high),
            b'n' => self.size = usize::from(n),
            b'w' => self.buffer.fill(low),
            b's' => self.start(rt),
            b'f' => self.feed(rt, piece),
            _ => self.close(rt),
        }
    }

    // The calls, each after five bytes: which, a number, and the length of its bytes.
    fn run(&mut self, rt: &impl Print, calls: &[u8]) {
        let mut rest = calls;
        while let [op, n0, n1, m0, m1, behind @ ..] = rest {
            let n = u16::from_le_bytes([*n0, *n1]);
            let m = usize::from(u16::from_le_bytes([*m0, *m1]));
            if behind.len() < m {
                return;
            }
            self.call(rt, *op, n, &behind[..m]);
            rest = &behind[m..];
        }
    }
}

fn main(rt: HostRuntime) {
    let mut space = [0u8; 65536];
    match lent_file::read_file(&rt, "calls", &mut space) {
        Ok((n, _)) => {
            let mut buffer = [0u8; 6240];
            let mut table = Table::empty();
            let started = Reader::start_with_answer(&table, &buffer);
            let mut calls = Calls {
                reader: started.reader,
                table: &mut table,
                buffer: &mut buffer,
                size: 0,
            };
            calls.run(&rt, &space[..n]);
        }
        Err(e) => {
            let _ = eprintln!(rt; "calls: {e}");
        }
    }
}
