// Points from lines of text, and the lines that answer them.
#![tactic(auto, unfolding(crate::specs::Answers::said_line, crate::specs::Answers::refused_line, crate::specs::Answers::stop_line, crate::specs::Answers::word_line))]

ghost use Rattle.std.specs.Prelude.{◌≡◌, not, position};
ghost use Rattle.points.specs.Points.{is_blank, after_blanks, word, after_word, without_cr, point_from, point_of};

use geometry::Point;

pub mod number; // number.rt: a whole number, as it is written
pub mod answer; // answer.rt: the lines that are written

// The byte is a space or a tab.
#[tactic(auto, unfolding(crate::specs::Points::is_blank))]
fn is_blank(b: u8) -> bool
    ensures { result ≡ is_blank b }
{
    b == b' ' || b == b'\t'
}

// The place of the first byte that is no blank.
// Stays: a function of its own, as `first_blank` is: with the chain inside `after_blanks` and `split_word` their goals `returns` are not proved.
fn first_other(s: &[u8]) -> Option<usize>
    ensures { result ≡ position (λ b. not (is_blank b)) s.now }
{
    s.iter().position(|b| !is_blank(*b))
}

// The place of the first blank.
fn first_blank(s: &[u8]) -> Option<usize>
    ensures { result ≡ position is_blank s.now }
{
    s.iter().position(|b| is_blank(*b))
}

// What follows the blanks at the start.
fn after_blanks(s: &[u8]) -> &[u8]
    ensures { result.now ≡ after_blanks s.now }
{
    let n = first_other(s).unwrap_or(s.len());
    &s[n..]
}

// The bytes before the first blank, and that blank with what follows it.
fn split_word(s: &[u8]) -> (&[u8], &[u8])
    ensures { (result.0.now ≡ word s.now) × (result.1.now ≡ after_word s.now) }
{
    let n = first_blank(s).unwrap_or(s.len());
    s.split_at(n)
}

// The line but for a CR at its end.
fn without_cr(s: &[u8]) -> &[u8]
    ensures { result.now ≡ without_cr s.now }
{
    s.strip_suffix(b"\r").unwrap_or(s)
}

// The point of a line whose first number is at its start.
fn point_from(line: &[u8]) -> Option<Point>
    ensures { result ≡ point_from line.now }
{
    let (first, rest) = split_word(line);
    let (second, end) = split_word(after_blanks(rest));
    if !after_blanks(end).is_empty() {
        return None;
    }
    let x = number::number_in(first)?;
    let y = number::number_in(second)?;
    Some(Point { x, y })
}

// The point of a line, whatever its bytes are; none where they are not two whole numbers. Ruled out: a number more at the end, and a number
// beyond the range that is taken for another.
#[tactic(auto, unfolding(crate::specs::Points::point_of))]
pub fn point_in(line: &[u8]) -> Option<Point>
    ensures { result ≡ point_of line.now }
{
    point_from(after_blanks(without_cr(line)))
}
