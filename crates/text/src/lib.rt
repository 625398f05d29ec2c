// Lines as bytes in a lent buffer, and those of the judging program.
#![tactic(auto, unfolding(crate::specs::Put::has_room, crate::specs::Text::book_lines, crate::specs::Text::line_of))]

ghost use Rattle.std.specs.Prelude.{◌≡◌, List, ℕ, ◌+◌, ◌≤◌, length};
ghost use Rattle.text.specs.Text.{word_text, stream_names, line_of, book_lines};
ghost use Rattle.text.specs.Put.{has_room, write};

pub mod put; // put.rt: words, numbers and lines put into a buffer

use arrayvec::ArrayString;
use itoa::Buffer;
use verdict::{Verdict, Word};

// What can be written: lines of at most 64 bytes in all.
// Stays: a trait of its own in place of `Display`: of `write!` and `fmt` the clauses say which bytes come out where they answer Ok, and none says that
// they do where there is room, so that `text` could not promise its bytes.
pub trait Line {
    ghost text: { Self → List ℕ };

    // The lines.
    fn text(self) -> ArrayString<64>
        ensures { result.bytes ≡ text self };
}

// The buffer has room for a line from the place on.
pub fn has_room(len: usize, at: usize) -> bool
    ensures { result ≡ has_room len at }
{
    at <= len && 64 <= len - at
}

// Writes a line from a place on, and answers the place after it; where the buffer has less than 64 bytes from there, it writes nothing. Ruled out:
// a line that is written where the buffer has no room for it, and one after which the place is as before.
// Stays: the place beside the buffer, which is lent: the caller writes the next line from the place that it gets, and prints the bytes before it.
pub fn write<L: Line + Drop>(out: &mut [u8], at: usize, line: L) -> usize
    ensures written { record { out = out.new; at = result } ≡ write out.old at (L.text line) }
    ensures short { result ≤ at + 64 }
    ensures inside { at ≤ length out.old → result ≤ length out.new }
{
    if !has_room(out.len(), at) {
        return at;
    }
    let text = line.text();
    let behind = at + text.len();
    out[at..behind].copy_from_slice(text.as_bytes());
    behind
}

// The first line of what is printed for a stream.
#[derive(Clone, Copy)]
pub struct StreamNames;

impl Line for StreamNames {
    ghost text = { λ _. stream_names };

    fn text(self) -> ArrayString<64> {
        let mut text = ArrayString::new();
        text.push_str("verdict number place\n");
        text
    }
}

// The word of a verdict.
// Stays: no `Display` of `Word`, for the reason at `Line`.
fn word_of(word: Word) -> &'static str
    ensures { (result.now ≡ word_text word) × (length result.now ≤ 7) }
{
    match word {
        Word::Valid => "valid",
        Word::Invalid => "invalid",
        Word::Refused => "refused",
    }
}

impl Line for Verdict {
    ghost text = { line_of };

    // Ruled out: the number of another refusal, and the place before.
    fn text(self) -> ArrayString<64> {
        let mut text = ArrayString::new();
        text.push_str(word_of(self.word()));
        text.push_str(" ");
        text.push_str(Buffer::new().format(self.number()));
        text.push_str(" ");
        text.push_str(Buffer::new().format(self.place()));
        text.push_str("\n");
        text
    }
}

// Why a book is refused: the number, and the line that it stands on.
#[derive(Clone, Copy)]
pub struct RefusedBook {
    pub number: usize,
    pub line: usize,
}

impl Line for RefusedBook {
    ghost text = { λ x. book_lines x.number x.line };

    // Ruled out: the line in place of the number, and a number that lacks a digit.
    fn text(self) -> ArrayString<64> {
        let mut text = ArrayString::new();
        text.push_str("number line\n");
        text.push_str(Buffer::new().format(self.number));
        text.push_str(" ");
        text.push_str(Buffer::new().format(self.line));
        text.push_str("\n");
        text
    }
}
