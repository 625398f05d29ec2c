// The program that answers points: reads the corners of the text in text.json, and prints a line for each point of standard input. The text is
// judged and the point answered by crate boundary, and points are read and lines made by crate points; here bytes are only read and written.
#![tactic(auto, unfolding(text::specs::Put::has_room))]

ghost use Rattle.std.specs.Prelude.{◌≡◌, ◌≤◌, ◌+◌, [], ◌++◌, cond, length};
ghost use Rattle.std.specs.Option.{option_map};
ghost use Rattle.text.specs.Put.{has_room};
ghost use Rattle.plane.specs.Lent.{corners_of};
ghost use Rattle.boundary.specs.Exact.{answer_at};
ghost use Rattle.points.specs.Points.{point_of};
ghost use Rattle.points.specs.Answers.{said_line};

use arrayvec::ArrayVec;
use boundary::Refusal;
use geometry::Located;
use plane::Corners;
use points::answer::{AnswerNames, NoPoint, Said};
use std::io::Read;
use std::rt::Files;
use std::{fmt, io};
use table::flat::Table;
use text::Line;

// The bytes of one read, and of the answers that are printed at once.
const BLOCK: usize = 65536;

// The bytes that a line of the input may have.
const LINE_SPACE: usize = 4096;

// One byte more than a text may have, so that a longer one is refused.
const TEXT_SPACE: usize = 4194305;

// Why text.json is not judged.
#[derive(Drop)]
enum TextError {
    TooLong,
    Unreadable(io::Error),
}

impl From<io::Error> for TextError {
    fn from(e: io::Error) -> TextError {
        TextError::Unreadable(e)
    }
}

impl fmt::Display for TextError {
    fn fmt<W: fmt::Write>(&self, f: &mut fmt::Formatter<W>) -> fmt::Result {
        match self {
            TextError::TooLong => write!(f, "the text has more than 4194304 bytes"),
            TextError::Unreadable(e) => write!(f, "text.json: {e}"),
        }
    }
}

// The text in text.json. A file that fills the space has too many bytes.
fn read_text<'s>(rt: &impl Files, space: &'s mut [u8; TEXT_SPACE]) -> Result<&'s [u8], TextError> {
    let (n, ended) = lent_file::read_file(rt, "text.json", space)?;
    ended?;
    if n == space.len() {
        return Err(TextError::TooLong);
    }
    Ok(&space[..n])
}

// What is answered for a line; none where it has no point.
fn answer(corners: &Corners, line: &[u8]) -> Option<Result<Located, Refusal>>
    ensures { result ≡ option_map (answer_at (corners_of corners.now)) (point_of line.now) }
{
    let p = points::point_in(line)?;
    Some(boundary::answer_at(corners, p))
}

// The answers end: the input does, a line has no point, or the output cannot be written.
#[derive(Clone, Copy)]
struct Ended;

// Lines that are not printed yet.
#[derive(Drop)]
struct Output {
    lines: ArrayVec<u8, BLOCK>,
}

impl Output {
    fn new() -> Output {
        Output {
            lines: ArrayVec::new(),
        }
    }

    // Puts a line behind the others where there is room for one, and nothing where there is none. Ruled out: a line that is put where the room may
    // not do, and one that is put before the others.
    fn put<L: Line + Drop>(&mut self, line: L)
        ensures { self.new.lines.items ≡ cond (has_room 65536 (length self.old.lines.items)) (self.old.lines.items ++ L.text line) self.old.lines.items }
    {
        if text::has_room(BLOCK, self.lines.len()) {
            let text = line.text();
            let _ = self.lines.try_extend_from_slice(text.as_bytes());
        }
    }

    // Prints the lines.
    fn print(&mut self, rt: &impl Print) -> Result<(), Ended>
        ensures { self.new.lines.items ≡ [] }
    {
        let printed = rt.write_all(&self.lines);
        self.lines.clear();
        printed.map_err(|_| Ended)
    }
}

// The corners that points are answered to, the answers, the line under way, and how many lines were answered.
#[derive(Drop)]
struct Session<'a, P, E> {
    rt: &'a P,
    err: &'a E,
    corners: Corners<'a>,
    output: Output,
    line: ArrayVec<u8, LINE_SPACE>,
    lines: usize,
}

impl<'a, P: Print, E: Print> Session<'a, P, E> {
    // Puts the line of an answer behind the output, which is printed first where it has no room for one. Ruled out: a point outside that is said to
    // be inside, and the number of another refusal.
    fn say(&mut self, a: Result<Located, Refusal>)
        ensures { self.new.output.lines.items ≡ cond (has_room 65536 (length self.old.output.lines.items)) self.old.output.lines.items [] ++ said_line a }
    {
        if !text::has_room(BLOCK, self.output.lines.len()) {
            let _ = self.output.print(self.rt);
        }
        self.output.put(Said(a));
    }

    // Prints the output, and says that the line has no point: the answers end.
    fn stop(&mut self) -> Result<(), Ended> {
        let _ = self.output.print(self.rt);
        self.output.put(NoPoint {
            line: self.lines.saturating_add(1),
        });
        let _ = self.output.print(self.err);
        Err(Ended)
    }

    // Answers the line under way.
    fn answer_line(&mut self) -> Result<(), Ended> {
        let Some(a) = answer(&self.corners, &self.line) else {
            return self.stop();
        };
        self.say(a);
        self.lines = self.lines.saturating_add(1);
        self.line.clear();
        Ok(())
    }

    // Takes one byte: LF ends the line under way, and every other goes into it, where there is room.
    fn take(&mut self, b: u8) -> Result<(), Ended> {
        if b == b'\n' {
            return self.answer_line();
        }
        if self.line.try_push(b).is_err() {
            return self.stop();
        }
        Ok(())
    }

    // Takes the bytes of a piece.
    fn take_piece(&mut self, piece: &[u8]) -> Result<(), Ended> {
        for b in piece {
            self.take(*b)?;
        }
        Ok(())
    }

    // The end of the input: the last line may lack its LF.
    fn take_end(&mut self) -> Result<(), Ended> {
        if !self.line.is_empty() {
            self.answer_line()?;
        }
        Err(Ended)
    }

    // Reads what has arrived, and answers its lines. A read that fails is the end of the input.
    fn take_some(&mut self, input: &mut impl Read, space: &mut [u8]) -> Result<(), Ended> {
        let count = input.read(space).unwrap_or(0);
        let taken = if count == 0 {
            self.take_end()
        } else {
            self.take_piece(&space[..count])
        };
        self.output.print(self.rt)?;
        taken
    }
}

// Prints the names of the columns, and answers the points of standard input. A proved loop has to end, and nothing says that the input does: the
// loop counts its turns up to a number that no run reaches.
fn answer_points<'a>(rt: &'a (impl Input + Print), err: &'a impl Print, corners: Corners<'a>) {
    let mut output = Output::new();
    output.put(AnswerNames);
    let _ = output.print(rt);
    let mut session = Session {
        rt,
        err,
        corners,
        output,
        line: ArrayVec::new(),
        lines: 0,
    };
    let mut input = rt.reader();
    let mut space = [0u8; BLOCK];
    for _ in 0..u64::MAX {
        if session.take_some(&mut input, &mut space).is_err() {
            return;
        }
    }
}

// Judges a text, and answers the points or the refusal.
fn answer_text(rt: &(impl Input + Print), err: &impl Print, text: &[u8]) {
    let mut table = Table::empty();
    let mut memory = [0i32; 2048];
    match boundary::read(text, &mut table, &mut memory) {
        Ok(n) => answer_points(rt, err, Corners::new(&memory, n)),
        Err(k) => {
            let mut output = Output::new();
            output.put(Said(Err(k)));
            let _ = output.print(rt);
        }
    }
}

fn main(rt: HostRuntime) {
    let mut space = [0u8; TEXT_SPACE];
    match read_text(&rt, &mut space) {
        Ok(text) => answer_text(&rt, &rt.stderr(), text),
        Err(e) => {
            let _ = eprintln!(rt; "{e}");
        }
    }
}
