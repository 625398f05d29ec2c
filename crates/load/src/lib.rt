// Load: the table that a rule book says, or its refusal. REQUIREMENT.md, section 3.
#![tactic(auto)]

ghost use Rattle.std.specs.Prelude.{◌≡◌};
ghost use Rattle.load.specs.BookAnswer.{refused_as, numbered};
ghost use Rattle.load.specs.Loads.{LoadsAs, Blank};
ghost use Rattle.load.specs.Step.{loaded_as, answered};

use table::flat::Table;

mod read; // read.rt: a book line by line, refusals 1 to 7
mod check; // check.rt: the checks after all lines, refusals 8 and 9

// Why a book is refused, with the line where there is one.
// Stays: a list of its own beside `line::Fault`, since the table of refusals in docs/REQUIREMENT.md has each refusal by its own name and number; a variant
// that holds a `Fault` and a line would hide five of the nine.
#[derive(Clone, Copy, PartialEq, Eq)]
pub enum Refusal {
    // 1: empty, or over 65,536 bytes
    Size,
    // 2: another names line
    Names,
    // 3: a malformed line
    Malformed(usize),
    // 4: a rule or state number above its limit
    AboveLimit(usize),
    // 5: an edge or a key too many
    TooMany(usize),
    // 6: the form of a rule changed
    FormChanged(usize),
    // 7: a line repeated
    Repeated(usize),
    // 8: a reference to a rule that has no lines
    NoRule(usize),
    // 8: rule 0 has no lines
    NoRoot,
    // 9: keys that do not ascend
    NotAscending(usize),
}

impl Refusal {
    // The number of a refusal.
    pub fn number(self) -> u8
        ensures { result ≡ (refused_as self).number }
    {
        match self {
            Refusal::Size => 1,
            Refusal::Names => 2,
            Refusal::Malformed(_) => 3,
            Refusal::AboveLimit(_) => 4,
            Refusal::TooMany(_) => 5,
            Refusal::FormChanged(_) => 6,
            Refusal::Repeated(_) => 7,
            Refusal::NoRule(_) | Refusal::NoRoot => 8,
            Refusal::NotAscending(_) => 9,
        }
    }

    // The line of a refusal; 0 where it has none.
    // Stays: 0, since the C interface, the entry of a judged stream and the lines that `report` writes all give 0 for none: with an Option each of them
    // would make the 0 itself.
    pub fn line(self) -> usize
        ensures { result ≡ (refused_as self).line }
    {
        match self {
            Refusal::Size | Refusal::NoRoot => 0,
            Refusal::Names => 1,
            Refusal::Malformed(n)
            | Refusal::AboveLimit(n)
            | Refusal::TooMany(n)
            | Refusal::FormChanged(n)
            | Refusal::Repeated(n)
            | Refusal::NoRule(n)
            | Refusal::NotAscending(n) => n,
        }
    }
}

// The number of an answer: 0 for a book that is accepted.
// Stays: a number, and made here, since two functions of the C interface and `vectors_load` give it: each of them would make the 0 itself.
pub fn number_of(a: Result<(), Refusal>) -> u8
    ensures { result ≡ (numbered a).number }
{
    match a {
        Ok(()) => 0,
        Err(r) => r.number(),
    }
}

// The line of an answer: 0 where it has none.
// Stays: 0, and made here, as in `Refusal::line`.
pub fn line_of(a: Result<(), Refusal>) -> usize
    ensures { result ≡ (numbered a).line }
{
    match a {
        Ok(()) => 0,
        Err(r) => r.line(),
    }
}

// The table of a book, or its refusal, with a table that does not count.
fn read_book(table: &mut Table, book: &[u8]) -> Result<(), Refusal>
    ensures { LoadsAs book.now (answered result table.new) }
{
    read::take_book(table, book)?;
    check::check_table(table)
}

// Loads a rule book, whose bytes stay as they are. Every byte string has an answer: the one with the number and line that the paper's `loads`
// gives it, and the table of the entries that it gives; a refused book's table is the empty one, every byte of which is 0. Ruled out are, for
// example, a program that answers `NoRule(0)` where the root has no lines, and one that finds a repeated line only where it directly follows.
pub fn load(book: &[u8], table: &mut Table) -> Result<(), Refusal>
    ensures loads_as { LoadsAs book.now (loaded_as result table.new) }
    ensures blank { Blank book.now table.new }
{
    let answer = read_book(table, book);
    if answer.is_err() {
        *table = Table::empty();
    }
    answer
}
