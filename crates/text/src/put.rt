// Words, numbers and lines put into a buffer from a place on. Each function answers the place after what it put.
ghost use Rattle.std.specs.Prelude.{◌≡◌, [], ◌∷◌, ◌+◌, ◌≤◌, ◌<◌, length, decimal};
ghost use Rattle.text.specs.Text.{word_text, line_of, book_lines};
ghost use Rattle.text.specs.Put.{Put};
ghost use Rattle.verdict.specs.Verdict.{shown};

use crate::{Line, RefusedBook, word_of};
use itoa::Buffer;
use verdict::Verdict;

// One byte. Ruled out: one that answers its own place.
pub fn put(out: &mut [u8], at: usize, b: u8) -> usize
    requires { at < length out.old }
    ensures { Put out.old at (b ∷ []) out.new result }
{
    put_bytes(out, at, &[b])
}

// Bytes. Ruled out: bytes put one place further on, and a last one that is left out.
pub fn put_bytes(out: &mut [u8], at: usize, bytes: &[u8]) -> usize
    requires { at + length bytes.now ≤ length out.old }
    ensures { Put out.old at bytes.now out.new result }
{
    let behind = at + bytes.len();
    out[at..behind].copy_from_slice(bytes);
    behind
}

// A number in decimal digits.
pub fn put_decimal(out: &mut [u8], at: usize, n: usize) -> usize
    requires { at + 20 ≤ length out.old }
    ensures put { Put out.old at (decimal n) out.new result }
    ensures upper_bound { result ≤ at + 20 }
{
    put_bytes(out, at, Buffer::new().format(n).as_bytes())
}

// The word of a verdict.
pub fn put_word(out: &mut [u8], at: usize, v: Verdict) -> usize
    requires { at + 7 ≤ length out.old }
    ensures put { Put out.old at (word_text (shown v).word) out.new result }
    ensures upper_bound { result ≤ at + 7 }
{
    put_bytes(out, at, word_of(v.word()).as_bytes())
}

// The line of a verdict.
pub fn put_line(out: &mut [u8], at: usize, v: Verdict) -> usize
    requires { at + 64 ≤ length out.old }
    ensures { Put out.old at (line_of v) out.new result }
{
    put_bytes(out, at, v.text().as_bytes())
}

// The lines of a refused book.
pub fn put_book(out: &mut [u8], at: usize, number: usize, line: usize) -> usize
    requires { at + 64 ≤ length out.old }
    ensures { Put out.old at (book_lines number line) out.new result }
{
    put_bytes(out, at, RefusedBook { number, line }.text().as_bytes())
}
