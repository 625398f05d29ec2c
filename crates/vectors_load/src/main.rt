// Loads the books 00, 01, .. of data/, and writes the number and line of each answer: BOOKS.md says what each book is.
#![tactic(auto)]

use arrayvec::ArrayString;
use std::fmt::Write;
use std::io;
use std::rt::Files;
use table::flat::Table;

const BOOKS: usize = 71;

// More bytes than any book of data/ has.
const SPACE: usize = 66000;

// Loads a book, and writes its answer on a line.
fn tell(rt: &impl Print, book: &[u8]) {
    let mut table = Table::empty();
    let a = load::load(book, &mut table);
    let number = load::number_of(a);
    let line = load::line_of(a);
    let _ = println!(rt; "{number} {line}");
}

// Reads a book as far as there is space and no read fails, and tells its answer.
fn tell_file(rt: &(impl Files + Print), name: &str, space: &mut [u8]) -> io::Result<()> {
    let (n, _) = lent_file::read_file(rt, name, space)?;
    tell(rt, &space[..n]);
    Ok(())
}

fn main(rt: HostRuntime) {
    let mut space = [0u8; SPACE];
    for i in 0..BOOKS {
        let mut name = ArrayString::<2>::new();
        let _ = write!(name, "{i:02}");
        if let Err(e) = tell_file(&rt, &name, &mut space) {
            let _ = eprintln!(rt; "{name}: {e}");
            return;
        }
    }
}
