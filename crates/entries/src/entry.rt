// Entries in the output.
ghost use Rattle.std.specs.Prelude.{◌≡◌, ◌+◌, ◌<◌, length};
ghost use Rattle.entries.specs.Entries.{verdict_entry, numbered_bytes, with_bytes, with_entry, with_entries};
ghost use Rattle.entries.specs.Feeds.{answer_entries};

use reader::Answer;
use verdict::{Verdict, Word};

// What is said of a record, a book or a call, and how many bytes of the stream were read by then.
#[derive(Clone, Copy)]
pub struct Entry {
    pub word: Word,
    pub number: u8,
    pub place: usize,
    pub read: usize,
}

impl Entry {
    // A verdict, after so many bytes of the stream.
    fn of(v: Verdict, read: usize) -> Entry
        ensures { result ≡ verdict_entry v read }
    {
        Entry {
            word: v.word(),
            number: v.number(),
            place: v.place() as usize,
            read,
        }
    }

    // Entry i, where the output has its place.
    pub fn put(self, out: &mut [u8], i: usize)
        ensures { out.new ≡ with_entry out.old i self }
    {
        put_entry(out, i, self.word as u8, self.number, self.place, self.read)
    }
}

// The bytes of an entry: the numbers begin with their lowest byte.
fn numbered_bytes(word: u8, number: u8, place: usize, read: usize) -> [u8; 16]
    ensures { result ≡ numbered_bytes word number place read }
{
    let p = place.to_le_bytes();
    let r = read.to_le_bytes();
    [
        word, number, 0, 0, p[0], p[1], p[2], p[3], r[0], r[1], r[2], r[3], r[4], r[5], r[6], r[7],
    ]
}

// Entry i with any number for its word, where the output has its place. Ruled out: one that writes part of an entry where the output ends, and one
// that takes each word above 2 for a refusal.
pub fn put_entry(out: &mut [u8], i: usize, word: u8, number: u8, place: usize, read: usize)
    ensures { out.new ≡ with_bytes out.old i (numbered_bytes word number place read) }
{
    if i < out.len() / 16 {
        let at = 16 * i;
        out[at..at + 16].copy_from_slice(&numbered_bytes(word, number, place, read));
    }
}

// The entry of an answer, if it says anything, and how many entries there are then.
#[tactic(auto, unfolding(crate::specs::Entries::with_entries))]
pub fn put_answer(out: &mut [u8], i: usize, a: Answer, read: usize) -> usize
    requires { i < 18446744073709551615 }
    ensures { (out.new ≡ with_entries out.old i (answer_entries a read)) × (result ≡ i + length (answer_entries a read)) }
{
    let entry = match a {
        Ok(None) => return i,
        Ok(Some(v)) => Entry::of(v, read),
        Err(n) => Entry {
            word: Word::Refused,
            number: n.number(),
            place: 0,
            read,
        },
    };
    entry.put(out, i);
    i + 1
}
