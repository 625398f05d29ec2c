// The lines that the program for points writes, for `text::write`.
ghost use Rattle.std.specs.Prelude.{◌≡◌, ◌≤◌, length};
ghost use Rattle.points.specs.Answers.{answer_names, place_word, word_line, refused_line, said_line, stop_line};

use arrayvec::ArrayString;
use boundary::Refusal;
use geometry::{Located, Place};
use itoa::Buffer;
use text::Line;

// The word of a place.
// Stays: no `Display` of `Place`, for the reason at `text::Line`.
fn place_word(p: Place) -> &'static str
    ensures { (result.now ≡ place_word p) × (length result.now ≤ 7) }
{
    match p {
        Place::Outside => "outside",
        Place::Inside => "inside",
        Place::Edge => "edge",
    }
}

// A word and a number.
fn word_line(word: &str, n: usize) -> ArrayString<64>
    requires { length word.now ≤ 7 }
    ensures { result.bytes ≡ word_line word.now n }
{
    let mut text = ArrayString::new();
    text.push_str(word);
    text.push_str(" ");
    text.push_str(Buffer::new().format(n));
    text.push_str("\n");
    text
}

// The first line.
#[derive(Clone, Copy)]
pub struct AnswerNames;

impl Line for AnswerNames {
    ghost text = { λ _. answer_names };

    fn text(self) -> ArrayString<64> {
        let mut text = ArrayString::new();
        text.push_str("answer corner\n");
        text
    }
}

// The line of an answer.
#[derive(Clone, Copy)]
pub struct Said(pub Result<Located, Refusal>);

impl Line for Said {
    ghost text = { λ x. said_line x.0 };

    // Ruled out: a point inside that is said to be outside, and the number of another corner.
    fn text(self) -> ArrayString<64> {
        match self.0 {
            Ok(l) => word_line(place_word(l.place), l.nearest),
            Err(k) => RefusedAs(usize::from(k.number())).text(),
        }
    }
}

// The line of a refusal that is told by its number, whatever the number is.
#[derive(Clone, Copy)]
pub struct RefusedAs(pub usize);

impl Line for RefusedAs {
    ghost text = { λ x. refused_line x.0 };

    // Ruled out: a number that no text or point gets taken for another, and the word of an answer.
    fn text(self) -> ArrayString<64> {
        word_line("refused", self.0)
    }
}

// The line that says that a line of the input, by its number from 1 on, has no point.
#[derive(Clone, Copy)]
pub struct NoPoint {
    pub line: usize,
}

impl Line for NoPoint {
    ghost text = { λ x. stop_line x.line };

    fn text(self) -> ArrayString<64> {
        let mut text = ArrayString::new();
        text.push_str("line ");
        text.push_str(Buffer::new().format(self.line));
        text.push_str(": not two whole numbers\n");
        text
    }
}
