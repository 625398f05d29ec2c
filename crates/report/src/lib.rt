// The judging program's work, on slices.
#![tactic(auto)]

ghost use Rattle.std.specs.Prelude.{◌≡◌, ◌+◌, ◌≤◌, length};
ghost use Rattle.report.specs.Report.{is_last, written, report_next, report_of, finish_of, Begins};

use reader::{Answer, Reader};
use table::flat::Table;
use text::{RefusedBook, StreamNames};

// What a report gives beside the reader: the bytes read of the piece, the bytes written to the output, and what the last feed answered.
#[derive(Clone, Copy)]
pub struct Reported {
    pub read: usize,
    // Stays: apart from the output, which is lent for one call and read by its owner after it.
    pub used: usize,
    pub answer: Answer,
}

// A feed without a verdict is the last.
fn is_last(a: Answer) -> bool
    ensures { result ≡ is_last a }
{
    !matches!(a, Ok(Some(_)))
}

// The line of a verdict, if the answer is one.
fn write_answer(out: &mut [u8], at: usize, a: Answer) -> usize
    ensures written { record { out = out.new; at = result } ≡ written a out.old at }
    ensures short { result ≤ at + 64 }
{
    match a {
        Ok(Some(v)) => text::write(out, at, v),
        _ => at,
    }
}

// Feeds what is unread of a piece, and writes the line of the verdict if there is one.
// Stays: `reader`, `work` and `out` apart, as `report` and `finish` are lent them: of a struct with them each contract would say besides that it still
// holds the same three references.
fn report_next(
    x: Reported,
    reader: &mut Reader,
    table: &Table,
    work: &mut [u8],
    piece: &[u8],
    out: &mut [u8],
) -> Reported
    requires { x.read ≤ length piece.now }
    ensures next { record { reader = reader.new; work = work.new; read = result.read; out = out.new; used = result.used; answer = result.answer } ≡ report_next table.now piece.now reader.old work.old x.read out.old x.used }
    ensures short { result.used ≤ x.used + 64 }
{
    match reader.feed(table, work, &piece[x.read..]) {
        Ok(fed) => {
            let answer = Ok(fed.verdict);
            Reported {
                read: x.read + fed.count,
                used: write_answer(out, x.used, answer),
                answer,
            }
        }
        Err(refusal) => Reported {
            answer: Err(refusal),
            ..x
        },
    }
}

// Feeds what is unread of a piece until a feed gives no verdict, and writes a line for each verdict, as many as the output has room for. Ruled out:
// a report that drops the line of a verdict where the output ends, and one that feeds the same bytes again.
pub fn report(
    reader: &mut Reader,
    table: &Table,
    work: &mut [u8],
    piece: &[u8],
    out: &mut [u8],
) -> Reported
    ensures { record { reader = reader.new; work = work.new; read = result.read; out = out.new; used = result.used; answer = result.answer } ≡ report_of reader.old table.now work.old piece.now out.old }
{
    let lines = out.len() / 64;
    let mut x = Reported {
        read: 0,
        used: 0,
        answer: Ok(None),
    };
    for _ in 0..lines {
        x = report_next(x, reader, table, work, piece, out);
        if is_last(x.answer) {
            return x;
        }
    }
    Reported {
        answer: Ok(None),
        ..x
    }
}

// Closes, and writes the line of the last verdict. Ruled out: a finish that closes where its line has no room, and one that forgets the verdict of a
// record that no RS ended.
pub fn finish(reader: &mut Reader, table: &Table, work: &[u8], out: &mut [u8]) -> Reported
    ensures { record { reader = reader.new; work = work.now; read = result.read; out = out.new; used = result.used; answer = result.answer } ≡ finish_of reader.old table.now work.now out.old }
{
    if out.len() < 64 {
        return Reported {
            read: 0,
            used: 0,
            answer: Ok(None),
        };
    }
    let answer = reader.close(table, work);
    Reported {
        read: 0,
        used: write_answer(out, 0, answer),
        answer,
    }
}

// What a book begins with: whether it is accepted, and the bytes written to the output.
#[derive(Clone, Copy)]
pub struct Begun {
    // Stays: a Result would hold the bytes written on both sides, since they are told of a refused book too.
    pub accepted: bool,
    pub used: usize,
}

// Loads a book, and writes the names of a stream's fields, or the lines of its refusal. Ruled out: a program that judges by a refused book, and one
// that gives the line of a refusal before its number.
pub fn begin(book: &[u8], table: &mut Table, out: &mut [u8]) -> Begun
    ensures { Begins book.now out.old result.accepted table.new out.new result.used }
{
    match load::load(book, table) {
        Ok(()) => Begun {
            accepted: true,
            used: text::write(out, 0, StreamNames),
        },
        Err(refusal) => {
            let lines = RefusedBook {
                number: usize::from(refusal.number()),
                line: refusal.line(),
            };
            Begun {
                accepted: false,
                used: text::write(out, 0, lines),
            }
        }
    }
}
