// A book line by line: refusals 1 to 7.
ghost use Rattle.std.specs.Prelude.{◌≡◌, ◌≤◌, length};
ghost use Rattle.book.specs.Text.{split};
ghost use Rattle.table.specs.Flat.{empty_table};
ghost use Rattle.book.specs.Line.{say_line};
ghost use Rattle.line.specs.Line.{fault_number};
ghost use Rattle.store.specs.Store.{taken, fault_in};
ghost use Rattle.load.specs.Step.{answered, line_refusal, take_said, take_lines, take_book};

use crate::Refusal;
use line::Fault;
use table::flat::Table;

const NAMES: [u8; 31] = *b"rule form state key value next\n";

// The refusal for a fault of line n.
#[tactic(auto, unfolding(crate::specs::Step::line_refusal))]
fn line_refusal(fault: Fault, n: usize) -> Refusal
    ensures { result ≡ line_refusal (fault_number fault) n }
{
    match fault {
        Fault::Malformed => Refusal::Malformed(n),
        Fault::AboveLimit => Refusal::AboveLimit(n),
        Fault::TooMany => Refusal::TooMany(n),
        Fault::FormChanged => Refusal::FormChanged(n),
        Fault::Repeated => Refusal::Repeated(n),
    }
}

// A line without its LF, as line n.
fn take_line(table: &mut Table, n: u16, l: &[u8]) -> Result<(), Fault>
    ensures { taken (fault_in result) table.new ≡ take_said n table.old (say_line l.now) }
{
    let line = line::judge(l)?;
    store::take_entry(table, n, &line)
}

// The lines after the names line.
// Stays: a count beside what is left. `split_inclusive` with `enumerate` gives a last piece without an LF as an item too, so that the loop would take the
// LF off each piece and test for it, where `scan::cut` gives the line without it or none.
fn take_lines(table: &mut Table, lines: &[u8]) -> Result<(), Refusal>
    requires { length lines.now ≤ 65505 }
    ensures { answered result table.new ≡ take_lines 2 empty_table (split 10 lines.now) }
{
    *table = Table::empty();
    let mut rest = lines;
    let mut n: usize = 2;
    while let Some((l, behind)) = scan::cut(rest, b'\n') {
        if let Err(fault) = take_line(table, n as u16, l) {
            return Err(line_refusal(fault, n));
        }
        rest = behind;
        n += 1;
    }
    if !rest.is_empty() {
        return Err(Refusal::Malformed(n));
    }
    Ok(())
}

// The table of the lines of a book, or refusals 1 to 7.
pub fn take_book(table: &mut Table, b: &[u8]) -> Result<(), Refusal>
    ensures { answered result table.new ≡ take_book b.now }
{
    if b.is_empty() | (65536 < b.len()) {
        return Err(Refusal::Size);
    }
    match b.strip_prefix(NAMES.as_slice()) {
        Some(lines) => take_lines(table, lines),
        None => Err(Refusal::Names),
    }
}
