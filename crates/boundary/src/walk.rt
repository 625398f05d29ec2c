// A text fed to the reader piece by piece, and the numbers at level 3 taken from it, in one walk.
ghost use Rattle.std.specs.Prelude.{Bool, true, false, ◌||◌, ◌≡◌, ◌≤◌, ◌<◌, ◌+◌, ℕ, length, replicate, pos};
ghost use Rattle.std.specs.Bool.{then_some};
ghost use Rattle.book.specs.Examples.{book_b};
ghost use Rattle.load.specs.Loads.{book_table};
ghost use Rattle.coordinate.specs.Exact.{coordinate_of};
ghost use Rattle.corners.specs.Numbers.{is_number_byte, in_number};
ghost use Rattle.boundary.specs.Walk.{is_gap_byte, Tests, Stretch, takes};
ghost use Rattle.boundary.specs.Steps.{begun, Stands, Piece, WentOn, WalkedOn, WalkedAll, says_valid, ReadsAs};
ghost use Rattle.boundary.specs.Exact.{is_unfit, put_at};
ghost use Rattle.reader.specs.Machine.{close_of};

use json_text::lexer::Mode;
use progress::Progress;
use reader::{Answer, Reader};
use table::flat::Table;
use verdict::Verdict;

// A byte that numbers are written in.
fn is_number_byte(b: u8) -> bool
    ensures { result ≡ is_number_byte b }
{
    matches!(b, b'0'..=b'9' | b'-' | b'.' | b'e' | b'E' | b'+')
}

// A byte between numbers: none of theirs, and no RS.
fn is_gap_byte(b: u8) -> bool
    ensures { result ≡ is_gap_byte b }
{
    !is_number_byte(b) && b != 0x1E
}

// The end of the bytes that begin at a place and pass a test.
fn run_end<F: Fn(u8) -> bool>(text: &[u8], from: usize, test: F) -> usize
    requires callable { F.IsAlwaysCallable test }
    requires inside { from ≤ length text.now }
    ensures { (f : ℕ → Bool) → Tests (F.post test) f → Stretch f text.now from result }
{
    let rest = &text[from..];
    from + rest.iter().position(|b| !test(*b)).unwrap_or(rest.len())
}

fn in_number(m: Mode) -> bool
    ensures { result ≡ in_number m }
{
    matches!(m, Mode::Number(_))
}

// A number at level 3 is being read.
fn takes(x: Progress) -> bool
    ensures { result ≡ takes x }
{
    in_number(x.mode) & (x.level == 3)
}

// Puts number n in its place, where there is one and the number is fit.
fn put(corners: &mut [i32; 2048], n: usize, number: Option<i32>)
    ensures { corners.new ≡ put_at corners.old n number }
{
    if let Some(v) = number
        && n < 2048
    {
        corners[n] = v;
    }
}

// A text to be judged, and the table of book B.
#[derive(Clone, Copy)]
struct Source<'a> {
    text: &'a [u8],
    table: &'a Table,
    ghost book: { table.now ≡ book_table book_b },
}

// The call gives a record the verdict valid.
fn says_valid(a: Answer) -> bool
    ensures { result ≡ says_valid a }
{
    matches!(a, Ok(Some(Verdict::Valid)))
}

// The numbers at level 3 of a text: how many there are, and whether one of them is unfit.
#[derive(Clone, Copy)]
pub struct Numbers {
    pub taken: usize,
    // Stays: an Option of the count would lose it where a number is unfit, and refusal 32 by the count comes first.
    pub unfit: bool,
}

// Where the walk stands: the reader with the work bytes of its three frames, the place in the text, and the numbers so far.
#[derive(Clone, Copy)]
struct Walk {
    reader: Reader,
    work: [u8; 288],
    at: usize,
    numbers: Numbers,
}

const RS: [u8; 1] = [0x1E];

impl Walk {
    // Begins where it stays, since a walk that is handed on is copied: the reader has the three frames of 288 bytes, and is behind an RS.
    fn begin(&mut self, source: &Source)
        requires { self.old.work ≡ replicate 288 0 }
        ensures { self.new ≡ record { reader = begun.reader; work = self.old.work; at = self.old.at; numbers = self.old.numbers } }
    {
        self.reader = Reader::start(source.table, &self.work).unwrap();
        let _ = self.reader.feed(source.table, &mut self.work, &RS);
    }

    // Takes the number that the bytes fed last are.
    fn take_number(&mut self, corners: &mut [i32; 2048], number: &[u8])
        requires { self.old.numbers.taken < 18446744073709551615 }
        ensures walk { self.new ≡ record { reader = self.old.reader; work = self.old.work; at = self.old.at; numbers = record { taken = self.old.numbers.taken + 1; unfit = self.old.numbers.unfit || is_unfit (coordinate_of number.now) } } }
        ensures memory { corners.new ≡ put_at corners.old self.old.numbers.taken (coordinate_of number.now) }
    {
        let c = coordinate::read(number);
        put(corners, self.numbers.taken, c);
        self.numbers.taken += 1;
        self.numbers.unfit |= c.is_none();
    }

    // Feeds a piece: bytes between numbers, up to the place `from`, then bytes of numbers. Takes these where they are a number at level 3.
    fn feed_piece(&mut self, source: &Source, corners: &mut [i32; 2048], from: usize, end: usize)
        requires { Piece source.now.table.now source.now.text.now self.old corners.old from end }
        ensures { WentOn source.now.table.now source.now.text.now self.old.at self.new corners.new }
    {
        let text = source.text;
        let _ = self
            .reader
            .feed(source.table, &mut self.work, &text[self.at..end]);
        self.at = end;
        if takes(self.reader.progress) {
            self.take_number(corners, &text[from..end]);
        }
    }

    // Feeds the bytes up to the end of the next bytes of numbers. The walk ends at an RS.
    fn on(&mut self, source: &Source, corners: &mut [i32; 2048]) -> Option<()>
        requires { Stands source.now.table.now source.now.text.now self.old corners.old × (self.old.at < length source.now.text.now) }
        ensures { WalkedOn source.now.table.now source.now.text.now self.old.at result self.new corners.new }
    {
        let from = run_end(source.text, self.at, is_gap_byte);
        let end = run_end(source.text, from, is_number_byte);
        if end == self.at {
            return None;
        }
        self.feed_piece(source, corners, from, end);
        Some(())
    }

    // Feeds the whole text; none where it has an RS itself.
    fn all(&mut self, source: &Source, corners: &mut [i32; 2048]) -> Option<()>
        requires { Stands source.now.table.now source.now.text.now self.old corners.old }
        ensures { WalkedAll source.now.table.now source.now.text.now result self.new corners.new }
    {
        // Stays: a turn feeds any number of bytes, so that no range counts the place.
        while self.at < source.text.len() {
            self.on(source, corners)?;
        }
        Some(())
    }

    // Ends the record that a text is: its numbers, where it is valid.
    fn close(mut self, source: &Source) -> Option<Numbers>
        ensures { result ≡ then_some (says_valid (close_of self.reader source.now.table.now self.work).answer) self.numbers }
    {
        let answer = self.reader.close(source.table, &self.work);
        says_valid(answer).then_some(self.numbers)
    }
}

// Judges a text by book B and takes its numbers at level 3, in one walk over its bytes; none where the text is not valid.
pub fn read_text<'a>(text: &'a [u8], table: &'a Table, corners: &mut [i32; 2048]) -> Option<Numbers>
    requires { (table.now ≡ book_table book_b) × (corners.old ≡ replicate 2048 (pos 0)) }
    ensures { ReadsAs text.now result corners.new }
{
    let source = Source { text, table };
    let mut walk = Walk {
        reader: Reader::unstarted(),
        work: [0; 288],
        at: 0,
        numbers: Numbers {
            taken: 0,
            unfit: false,
        },
    };
    walk.begin(&source);
    walk.all(&source, corners)?;
    walk.close(&source)
}
