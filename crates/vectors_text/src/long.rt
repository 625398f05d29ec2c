// Streams of many bytes, which no buffer holds: a text in which one unit stands over and over.

use crate::say::Entries;
use crate::{WORK, say};
use entries::entry;
use reader::{Answer, Reader};
use table::flat::Table;

const BLOCK: usize = 65536;

// A stream under way: the reader, what is lent to it, and the entries so far.
#[derive(Drop)]
struct Stream<'a> {
    reader: Reader,
    table: &'a Table,
    work: &'a mut [u8; WORK],
    entries: Entries,
}

impl Stream<'_> {
    // The entry of an answer, which tells no number of bytes read; no more than 17 are counted.
    fn put(&mut self, a: Answer) {
        let made = self.entries.made;
        if made <= 16 {
            self.entries.made = entry::put_answer(&mut self.entries.out, made, a, 0);
        }
    }

    // The whole piece: what a feed leaves unread after a verdict is fed again. A refused feed reads nothing, and is the last.
    fn feed_all(&mut self, piece: &[u8]) {
        let mut rest = piece;
        while rest.len() > 0 {
            let mut reader = self.reader;
            let fed = reader.feed(self.table, self.work, rest);
            self.reader = reader;
            self.put(fed.map(|f| f.verdict));
            let count = fed.map_or(0, |f| f.count);
            if count == 0 || rest.len() < count {
                return;
            }
            rest = &rest[count..];
        }
    }

    // As many bytes as asked, of the block over and over.
    fn feed_many(&mut self, block: &[u8; BLOCK], n: usize) {
        for _ in 0..n / BLOCK {
            self.feed_all(block);
        }
        self.feed_all(&block[..n % BLOCK]);
    }

    fn close(&mut self) {
        let answer = self.reader.close(self.table, self.work);
        self.put(answer);
    }
}

// A text with a unit in it that stands over and over.
#[derive(Clone, Copy)]
pub struct Text<'a> {
    first: &'a [u8],
    unit: &'a [u8],
    last: &'a [u8],
}

impl<'a> Text<'a> {
    pub fn new(first: &'a [u8], unit: &'a [u8], last: &'a [u8]) -> Text<'a> {
        Text { first, unit, last }
    }

    // The unit over and over, in a block.
    fn block(&self) -> [u8; BLOCK] {
        let mut block = [0u8; BLOCK];
        let n = self.unit.len();
        if n > 0 {
            for part in block.chunks_mut(n) {
                for (b, u) in part.iter_mut().zip(self.unit.iter()) {
                    *b = *u;
                }
            }
        }
        block
    }

    // Judges the text as a stream with 64 frames, with n bytes of the unit over and over in its place.
    fn run_stream(&self, rt: &impl Print, table: &Table, label: &[u8], n: usize) {
        let mut work = [0u8; WORK];
        let started = Reader::start_with_answer(table, &work);
        let mut stream = Stream {
            reader: started.reader,
            table,
            work: &mut work,
            entries: Entries::none(),
        };
        stream.put(started.answer);
        stream.feed_all(self.first);
        stream.feed_many(&self.block(), n);
        stream.feed_all(self.last);
        stream.close();
        stream.entries.say(rt, label);
    }

    // A record of each number of bytes from the least to one more than a record can have, alone in its stream. The text begins with its RS.
    pub fn run(&self, rt: &impl Print, table: &Table, label: &[u8], least: u32) {
        for bytes in least..16777218 {
            say::write(rt, label);
            let _ = print!(rt; "-{bytes}");
            let n = (bytes as usize + 1)
                .saturating_sub(self.first.len())
                .saturating_sub(self.last.len());
            self.run_stream(rt, table, b"", n);
        }
    }
}

// A record that is too long, and a head that would be too long for a record, each with a record after it.
pub fn pairs(rt: &impl Print, table: &Table) {
    let too_long = Text::new(b"\x1e[", b"[\"a\",1],", b"\x1e[\"a\",1]");
    too_long.run_stream(rt, table, b"too-long-then-sound", 16777216);
    let long_head = Text::new(b"", b" ", b"\x1e[\"a\",1]");
    long_head.run_stream(rt, table, b"long-head-then-sound", 16777217);
}
