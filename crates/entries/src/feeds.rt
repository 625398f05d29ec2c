// A stream from the start on: fed piece by piece, and closed.
ghost use Rattle.std.specs.Prelude.{◌≡◌, ◌≤◌, ◌<◌, length};
ghost use Rattle.std.specs.Result.{is_err};
ghost use Rattle.entries.specs.Feeds.{feeds as Feeds·feeds, streamed, piece_end, in_out, Feeds, judge_table_of};
ghost use Rattle.entries.specs.Turn.{turn_of};

use crate::entry;
use reader::{Reader, Refusal};
use table::flat::Table;

// A stream that is fed in pieces cut at the multiples of a size, and the table that it is judged by.
#[derive(Clone, Copy)]
struct Stream<'a> {
    table: &'a Table,
    bytes: &'a [u8],
    size: usize,
}

// The end of the piece in which the unread bytes begin.
#[tactic(auto, unfolding(crate::specs::Feeds::piece_end))]
fn piece_end(read: usize, size: usize, len: usize) -> usize
    requires { read ≤ len }
    ensures value { result ≡ piece_end size read len }
    ensures lower_bound { (read ≤ result) × (result ≤ len) }
{
    if size == 0 {
        return len;
    }
    let most = size - read % size;
    if len - read < most {
        return len;
    }
    read + most
}

// What the feeds of a stream give: the reader, the bytes read, and how many entries.
#[derive(Clone, Copy)]
struct Fed {
    reader: Reader,
    read: usize,
    made: usize,
}

impl Fed {
    // Feeds the unread bytes up to the next cut, and puts the entry of the answer; a refused feed has none.
    // Stays: the bound on `made` in a contract: as a ghost field of `Fed` it would not be kept here, where `made` grows by one. What keeps it is that
    // there are no more entries than bytes read, which `feed_all` shows of the feeds from the first one on.
    // Stays: `work` and `out` apart, since of a struct with both each contract here would say besides that it still holds the same two references.
    fn feed_next(&mut self, stream: &Stream, work: &mut [u8], out: &mut [u8]) -> Result<(), Refusal>
        requires { (self.old.read < length stream.now.bytes.now) × (self.old.made < 18446744073709551615) }
        ensures { record { reader = self.new.reader; work = work.new; read = self.new.read; out = out.new; made = self.new.made; refused = is_err result } ≡ turn_of stream.now.table.now stream.now.size stream.now.bytes.now self.old.reader work.old self.old.read out.old self.old.made }
    {
        let end = piece_end(self.read, stream.size, stream.bytes.len());
        let fed = self
            .reader
            .feed(stream.table, work, &stream.bytes[self.read..end])?;
        self.read += fed.count;
        self.made = entry::put_answer(out, self.made, Ok(fed.verdict), self.read);
        Ok(())
    }
}

// Feeds piece after piece from a reader that has read nothing of a record, until all is read or a feed is refused.
fn feed_all(reader: Reader, stream: &Stream, work: &mut [u8], out: &mut [u8]) -> Fed
    requires { reader.progress.pos ≡ 0 }
    ensures feeds { Feeds (Feeds·feeds (length stream.now.bytes.now) stream.now.table.now stream.now.size reader work.old 0 stream.now.bytes.now) out.old result.reader work.new result.read out.new result.made }
    ensures made_bound { result.made < 18446744073709551615 }
{
    let mut f = Fed {
        reader,
        read: 0,
        made: 0,
    };
    // Stays: a turn feeds any number of bytes, so that no range counts the place; nor does a rest of the slice that gets shorter, since the cuts and
    // the entries count bytes from the start of the stream.
    while f.read < stream.bytes.len() {
        if f.feed_next(stream, work, out).is_err() {
            return f;
        }
    }
    f
}

// The feeds of a stream, then the close.
fn feed_close(reader: Reader, stream: &Stream, work: &mut [u8], out: &mut [u8]) -> usize
    requires { reader.progress.pos ≡ 0 }
    ensures { record { work = work.new; out = out.new; made = result } ≡ in_out out.old (streamed stream.now.table.now stream.now.size reader work.old stream.now.bytes.now) }
{
    let mut f = feed_all(reader, stream, work, out);
    let answer = f.reader.close(stream.table, work);
    entry::put_answer(out, f.made, answer, f.read)
}

// Starts with a table that is lent, feeds a stream cut at the multiples of a size, and closes. Answers how many entries that gives; each stands in
// the output where that has its place. A table that start refuses is one entry, with 23. Ruled out: a program that judges after a refused start, and
// one that says nothing of it.
pub fn judge(table: &Table, stream: &[u8], size: usize, work: &mut [u8], out: &mut [u8]) -> usize
    ensures { record { work = work.new; out = out.new; made = result } ≡ judge_table_of table.now stream.now size work.old out.old }
{
    let stream = Stream {
        table,
        bytes: stream,
        size,
    };
    match Reader::start(table, work) {
        Ok(reader) => feed_close(reader, &stream, work, out),
        Err(refusal) => entry::put_answer(out, 0, Err(refusal), 0),
    }
}
