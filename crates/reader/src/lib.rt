// The reader: start, feed and close.
#![tactic(auto)]

ghost use Rattle.std.specs.Prelude.{◌≡◌, true, length, Ok, MatchResult};
ghost use Rattle.progress.specs.Progress.{judged};
ghost use Rattle.reader.specs.Refusals.{refusal_number, within_reader, start_gate, call_gate};
ghost use Rattle.reader.specs.Tally.{zero_tally, tallied};
ghost use Rattle.reader.specs.Start.{fresh_reader, start_of};
ghost use Rattle.reader.specs.Said.{said, count_of, started};
ghost use Rattle.reader.specs.Machine.{feeding, feed_of, close_of};

use chars::class::Classes;
use progress::Progress;
use std::ops::ControlFlow;
use table::flat::Table;
use table::limits;
use turn::Record;
use turn::rules::Rules;
use verdict::Verdict;

// How many records of each verdict there were. Each count stops at the largest number.
#[derive(Clone, Copy, Default)]
pub struct Tally {
    pub valid: u32,
    pub invalid: u32,
    pub refused: u32,
}

impl Tally {
    // Counts one record more.
    #[tactic(auto, unfolding(laws::specs::Count::bump))]
    fn count(&mut self, verdict: Verdict)
        ensures { self.new ≡ tallied verdict self.old }
    {
        match verdict {
            Verdict::Valid => self.valid = self.valid.saturating_add(1),
            Verdict::Invalid => self.invalid = self.invalid.saturating_add(1),
            _ => self.refused = self.refused.saturating_add(1),
        }
    }
}

// A reader between two calls. docs/LIMITS.md names the bound of each of its numbers.
#[derive(Clone, Copy)]
pub struct Reader {
    // the frames of the buffer given at start
    pub frames: usize,
    // what is known of the open record
    pub progress: Progress,
    // the root of the open record is closed, and fits rule 0
    pub root: bool,
    // the characters of the open key
    pub key: [u8; 32],
    pub tally: Tally,
}

// Why a call is refused. The discriminants are the numbers that docs/NUMBERS.md gives.
#[derive(Clone, Copy, PartialEq, Eq)]
pub enum Refusal {
    // a buffer under 96 bytes
    SmallBuffer = 21,
    // a buffer under 96 times the reader's frames
    ShortBuffer = 22,
    // a number of the table or the reader above its limit
    AboveLimit = 23,
}

impl Refusal {
    // The number of a refusal.
    pub fn number(self) -> u8
        ensures { result ≡ refusal_number self }
    {
        self as u8
    }
}

// What a call says: nothing, the verdict of a record, or why it is refused.
pub type Answer = Result<Option<Verdict>, Refusal>;

// What `Reader::start_with_answer` gives: a reader, and whether the start was let in or why not.
#[derive(Clone, Copy)]
pub struct Started {
    pub reader: Reader,
    pub answer: Answer,
}

// What a feed that is let in gives: how many bytes it read, and the verdict of a record that ended.
#[derive(Clone, Copy)]
pub struct Fed {
    pub count: usize,
    pub verdict: Option<Verdict>,
}

// Whether a start is let in: the table, then 21 for a buffer of n bytes.
#[tactic(auto, unfolding(crate::specs::Refusals::start_gate, crate::specs::Refusals::first_refusal))]
fn admit_start(table: &Table, n: usize) -> Result<(), Refusal>
    ensures { result ≡ start_gate table.now n }
{
    if !limits::fit_limits(table) {
        return Err(Refusal::AboveLimit);
    }
    if n < Reader::FRAME {
        return Err(Refusal::SmallBuffer);
    }
    Ok(())
}

impl Reader {
    // the bytes of a frame, and the most levels
    pub const FRAME: usize = frame::FRAME;

    pub const LEVELS: usize = frame::LEVELS;

    // Nothing is read of a record, in the head or after an RS.
    fn fresh(frames: usize, head: bool, tally: Tally) -> Reader
        ensures { result ≡ fresh_reader frames head tally }
    {
        Reader {
            frames,
            progress: progress::fresh(head),
            root: false,
            key: [0; 32],
            tally,
        }
    }

    // A reader that no start has let in: every feed and close with it is refused. Ruled out: one that has a frame.
    pub fn unstarted() -> Reader
        ensures { result ≡ fresh_reader 0 true zero_tally }
    {
        Reader::fresh(0, true, Tally::default())
    }

    // A fresh reader for a table and a buffer, which stay as they are. Ruled out: a start that counts the frames of a longer buffer past 64, and
    // one that lets in a buffer without a frame.
    #[tactic(auto, unfolding(crate::specs::Start::start_of))]
    pub fn start(table: &Table, work: &[u8]) -> Result<Reader, Refusal>
        ensures { started result ≡ start_of table.now work.now }
    {
        admit_start(table, work.len())?;
        Ok(Reader {
            frames: frame::frames(work.len()),
            ..Reader::unstarted()
        })
    }

    // A start for a caller who needs a reader in any case: a reader, with the answer of the start. A refused start gives a fresh reader with 0
    // frames. Ruled out: a start that hands out frames with a refusal, and one that does not tell that it is refused.
    #[tactic(auto, unfolding(crate::specs::Start::start_of))]
    pub fn start_with_answer(table: &Table, work: &[u8]) -> Started
        ensures { record { reader = result.reader; answer = result.answer } ≡ start_of table.now work.now }
    {
        match Reader::start(table, work) {
            Ok(reader) => Started {
                reader,
                answer: Ok(None),
            },
            Err(refusal) => Started {
                reader: Reader::unstarted(),
                answer: Err(refusal),
            },
        }
    }

    // The numbers of the reader are within their bounds.
    #[tactic(auto, unfolding(crate::specs::Refusals::fit_reader))]
    fn is_within(&self) -> bool
        ensures { result ≡ within_reader self.now }
    {
        1 <= self.frames
            && self.frames <= Reader::LEVELS
            && self.progress.level <= self.frames
            && self.progress.len <= 33
    }

    // Whether a feed or a close is let in: the table, then 23 for the reader, then 22 for a buffer of n bytes.
    #[tactic(auto, unfolding(crate::specs::Refusals::call_gate, crate::specs::Refusals::first_refusal, crate::specs::Refusals::fit_reader))]
    fn admit<'t>(&self, table: &'t Table, n: usize) -> Result<Rules<'t>, Refusal>
        ensures { MatchResult result (λ rules. (call_gate (within_reader self.now) self.now.frames table.now n ≡ Ok tt) × (rules.table.now ≡ table.now) × (rules.frames ≡ self.now.frames)) (λ e. call_gate (within_reader self.now) self.now.frames table.now n ≡ Err e) }
    {
        if !limits::fit_limits(table) || !self.is_within() {
            return Err(Refusal::AboveLimit);
        }
        if n < Reader::FRAME * self.frames {
            return Err(Refusal::ShortBuffer);
        }
        Ok(Rules {
            table,
            frames: self.frames,
        })
    }

    // The reader with another open record.
    fn with_record(self, open: Record, key: [u8; 32]) -> Reader
        ensures { result ≡ record { frames = self.frames; progress = open.progress; root = open.root; key = key; tally = self.tally } }
    {
        Reader {
            progress: open.progress,
            root: open.root,
            key,
            ..self
        }
    }

    // The record ends: its verdict, which is counted. The reader is fresh for the next.
    fn end_record(&mut self, head: bool) -> Verdict
        ensures verdict { result ≡ judged self.old.progress self.old.root }
        ensures fresh { self.new ≡ fresh_reader self.old.frames head (tallied (judged self.old.progress self.old.root) self.old.tally) }
    {
        let verdict = progress::judge(self.progress, self.root);
        self.tally.count(verdict);
        *self = Reader::fresh(self.frames, head, self.tally);
        verdict
    }

    // Reads a piece up to and with the first RS that ends a record: how many bytes are read, and the verdict of that record.
    #[tactic(auto, unfolding(crate::specs::Machine::feeding), using(crate::proofs::RunLaws::run_done))]
    fn read_piece(&mut self, rules: Rules, work: &mut [u8], piece: &[u8]) -> Fed
        requires { rules.frames ≡ self.old.frames }
        ensures { record { reader = self.new; count = result.count; answer = Ok result.verdict; work = work.new } ≡ feeding self.old rules.entry.table.now work.old piece.now }
    {
        let classes = Classes::new();
        let mut record = Record {
            progress: self.progress,
            root: self.root,
        };
        let mut key = self.key;
        let mut i = 0;
        // Stays: a turn reads any number of bytes, so that no range counts the place; and not a slice that gets shorter, since a feed answers how many
        // bytes it read.
        while i < piece.len() {
            match piece::read_on(&mut record, &mut key, work, rules, &classes, piece, i) {
                ControlFlow::Continue(at) => i = at,
                ControlFlow::Break(at) => {
                    *self = self.with_record(record, key);
                    let verdict = self.end_record(false);
                    return Fed {
                        count: at,
                        verdict: Some(verdict),
                    };
                }
            }
        }
        *self = self.with_record(record, key);
        Fed {
            count: i,
            verdict: None,
        }
    }

    // Reads a piece up to and with the first RS that ends a record. A refused feed changes nothing. Ruled out: a feed that keeps levels of a record
    // over its RS, and one that reads on past a verdict.
    #[tactic(auto, unfolding(crate::specs::Machine::feed_of))]
    pub fn feed(&mut self, table: &Table, work: &mut [u8], piece: &[u8]) -> Result<Fed, Refusal>
        ensures { record { reader = self.new; count = count_of result; answer = said result; work = work.new } ≡ feed_of self.old table.now work.old piece.now }
    {
        let rules = self.admit(table, work.len())?;
        Ok(self.read_piece(rules, work, piece))
    }

    // Ends the last record like an RS, and is in the head again. A refused close changes nothing. Ruled out: a close that forgets the tally, and one
    // that gives a verdict where nothing was read.
    #[tactic(auto, unfolding(crate::specs::Machine::close_of, crate::specs::Machine::closing))]
    pub fn close(&mut self, table: &Table, work: &[u8]) -> Result<Option<Verdict>, Refusal>
        ensures { record { reader = self.new; count = 0; answer = result; work = work.now } ≡ close_of self.old table.now work.now }
    {
        self.admit(table, work.len())?;
        if 0 < self.progress.pos {
            return Ok(Some(self.end_record(true)));
        }
        *self = Reader::fresh(self.frames, true, self.tally);
        Ok(None)
    }
}
