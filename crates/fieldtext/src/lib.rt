// The reader for programs in C or Rust: a book or its table and a stream in, entries out. docs/LIBRARY.md.
#![tactic(auto)]

ghost use Rattle.std.specs.Prelude.{◌≡◌};
ghost use Rattle.book.specs.Load.{loads};
ghost use Rattle.load.specs.BookAnswer.{numbered};
ghost use Rattle.load.specs.Loads.{book_table, Blank};
ghost use Rattle.entries.specs.Feeds.{judge_table_of};
ghost use Rattle.fieldtext.specs.Judge.{judge_of};
ghost use Rattle.fieldtext.specs.Field.{text_refusal};
ghost use Rattle.fieldtext.specs.Said.{CornersSaid, PointSaid, TrackSaid};

use boundary::Refusal;
use entries::entry::Entry;
use entries::feeds;
use geometry::Point;
use replot::{TrackPoint, answer_number, nearest_in};
use table::flat::Table;
use verdict::Word;

// Fills the table that is lent with what a book says, and answers the number of its refusal; 0 where it is accepted. After a refusal every byte of
// the table is 0. Ruled out: a library that accepts every book, and one that leaves the lent table as it was.
#[unsafe(no_mangle)]
pub extern "C" fn fieldtext_load(book: &[u8], table: &mut Table) -> u8
    ensures number { result ≡ (loads book.now).number }
    ensures table { table.new ≡ book_table book.now }
    ensures blank { Blank book.now table.new }
{
    load::number_of(load::load(book, table))
}

// Why a book is refused, if it is.
fn check_book(book: &[u8]) -> Result<(), load::Refusal>
    ensures number { (numbered result).number ≡ (loads book.now).number }
    ensures line { (numbered result).line ≡ (loads book.now).line }
{
    load::load(book, &mut Table::empty())
}

// The number of a book's refusal; 0 where it is accepted. Ruled out: a library that answers 0 for every book, and one that answers the line.
#[unsafe(no_mangle)]
pub extern "C" fn fieldtext_book_number(book: &[u8]) -> u8
    ensures { result ≡ (loads book.now).number }
{
    load::number_of(check_book(book))
}

// The line of a book's refusal; 0 where it has none. Ruled out: a library that does not count the names line, and one that answers the number.
#[unsafe(no_mangle)]
pub extern "C" fn fieldtext_book_line(book: &[u8]) -> usize
    ensures { result ≡ (loads book.now).line }
{
    load::line_of(check_book(book))
}

// Starts with a table that is lent, feeds a stream cut at the multiples of a size, and closes. Answers how many entries that gives; each stands in
// the output where that has its place. A table that start refuses is one entry, with 23. Ruled out: a library that judges after a refused start, and
// one that says nothing of it.
#[unsafe(no_mangle)]
pub extern "C" fn fieldtext_judge_table<'a>(
    table: &'a Table,
    stream: &'a [u8],
    size: usize,
    work: &mut [u8],
    out: &mut [u8],
) -> usize
    ensures { record { work = work.exit.now; out = out.new; made = result } ≡ judge_table_of table.now stream.now size work.entry.now out.old }
{
    feeds::judge(table, stream, size, work, out)
}

// Loads a book, and judges a stream by its table. A refused book is one entry, with its number and line. Ruled out: a library that judges by a
// refused book, and one that writes part of an entry where the output ends.
#[unsafe(no_mangle)]
pub extern "C" fn fieldtext_judge(
    book: &[u8],
    stream: &[u8],
    size: usize,
    work: &mut [u8],
    out: &mut [u8],
) -> usize
    ensures { record { work = work.exit.now; out = out.new; made = result } ≡ judge_of book.now stream.now size work.entry.now out.old }
{
    let mut table = Table::empty();
    if let Err(refusal) = load::load(book, &mut table) {
        let entry = Entry {
            word: Word::Refused,
            number: refusal.number(),
            place: refusal.line(),
            read: 0,
        };
        entry.put(out, 0);
        return 1;
    }
    fieldtext_judge_table(&table, stream, size, work, out)
}

// The number of a text's refusal.
// Stays: the C interface has 0 where there is none.
fn text_refusal(b: Result<usize, Refusal>) -> u8
    ensures { result ≡ text_refusal b }
{
    b.err().map_or(0, |k| k.number())
}

// Judges a text by book B and takes its corners: how many there are, and the number of the refusal, 0 where there is none. The lent table is
// book B's then, and the lent corners hold their numbers; all zeros where the text or a corner is refused. Ruled out: a library that answers
// the corners of a text that is not valid, and one that leaves numbers of a refused text.
#[unsafe(no_mangle)]
pub extern "C" fn fieldtext_corners(
    text: &[u8],
    table: &mut Table,
    corners: &mut [i32; 2048],
    refusal: &mut u8,
) -> usize
    ensures { CornersSaid text.now result table.new corners.new refusal.new }
{
    let b = boundary::read(text, table, corners);
    *refusal = text_refusal(b);
    // Stays: the C interface has no corners, 0, for a refused text.
    b.unwrap_or(0)
}

// Reads a text as `fieldtext_corners` does, and says where a point lies: 0 outside, 1 inside, 2 on the edge, with the number of the nearest
// corner; or the number of the refusal, with 0. Ruled out: a library that calls a point on the edge inside, and one that keeps the nearest
// corner of a point before.
#[unsafe(no_mangle)]
pub extern "C" fn fieldtext_locate(
    text: &[u8],
    x: i32,
    y: i32,
    table: &mut Table,
    corners: &mut [i32; 2048],
    nearest: &mut usize,
) -> u8
    ensures { PointSaid text.now (record { x = x; y = y }) result table.new corners.new nearest.new }
{
    let a = boundary::query(text, Point { x, y }, table, corners);
    *nearest = nearest_in(a);
    answer_number(a)
}

// Reads a text once, as `fieldtext_corners` does, and answers each point of a track in its own room as `fieldtext_locate` answers it alone: its
// number, and the nearest corner. Answers the number of the text's refusal, after which no point is touched; 0 where there is none. Ruled out: a
// library that does not tell the refusal of a text, and one that answers 33 for the whole track where one of its points is out of range.
#[unsafe(no_mangle)]
pub extern "C" fn fieldtext_track(
    text: &[u8],
    track: &mut [TrackPoint],
    table: &mut Table,
    corners: &mut [i32; 2048],
) -> u8
    ensures { TrackSaid text.now track.old result table.new corners.new track.new }
{
    text_refusal(replot::replot(text, track, table, corners))
}
