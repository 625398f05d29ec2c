// A whole track in one pass: each point of a track answered against the boundary of one text. REQUIREMENT.md, section 10.
#![tactic(auto)]

ghost use Rattle.std.specs.Prelude.{◌≡◌, ◌<◌, map};
ghost use Rattle.plane.specs.Lent.{corners_of};
ghost use Rattle.replot.specs.Numbers.{answer_number, nearest_in};
ghost use Rattle.replot.specs.Track.{point_of, with_answer};
ghost use Rattle.boundary.specs.Exact.{HeldBy};
ghost use Rattle.replot.specs.Exact.{answered_by, track_by};
ghost use Rattle.replot.specs.Calls.{ReplotOf};

use boundary::Refusal;
use geometry::{Located, Point};
use plane::Corners;
use table::flat::Table;

// A point of a track, with room for its answer: the number of the answer, and the nearest corner. 16 bytes.
// Stays: the C interface tells an answer by its number and a corner, which is 0 after a refusal.
#[repr(C)]
#[derive(Clone, Copy)]
pub struct TrackPoint {
    pub x: i32,
    pub y: i32,
    pub answer: u32,
    pub nearest: u32,
}

// The number of an answer.
pub fn answer_number(a: Result<Located, Refusal>) -> u8
    ensures { result ≡ answer_number a }
{
    match a {
        Ok(l) => l.place as u8,
        Err(k) => k.number(),
    }
}

// The nearest corner of an answer; 0 where it is a refusal.
pub fn nearest_in(a: Result<Located, Refusal>) -> usize
    ensures { result ≡ nearest_in a }
{
    a.map_or(0, |l| l.nearest)
}

impl TrackPoint {
    fn point(self) -> Point
        ensures { result ≡ point_of self }
    {
        Point {
            x: self.x,
            y: self.y,
        }
    }

    // The entry with an answer in its room.
    fn with_answer(self, a: Result<Located, Refusal>) -> TrackPoint
        requires { nearest_in a < 4294967296 }
        ensures { result ≡ with_answer self a }
    {
        TrackPoint {
            answer: u32::from(answer_number(a)),
            nearest: nearest_in(a) as u32,
            ..self
        }
    }
}

// An entry with its answer.
fn answered(corners: &Corners, p: TrackPoint) -> TrackPoint
    ensures { result ≡ answered_by (corners_of corners.now) p }
{
    p.with_answer(boundary::answer_at(corners, p.point()))
}

// Answers each point of a track, in the entry's own room. Ruled out: one that leaves out the first point, and one that changes a point.
pub fn answer_each(corners: &Corners, track: &mut [TrackPoint])
    ensures { track.new ≡ map (answered_by (corners_of corners.now)) track.old }
{
    for p in track.iter_mut() {
        *p = answered(corners, *p);
    }
}

// Answers each point of a track, where `read` was read of a text; where that is a refusal, no point is touched. Ruled out: one that writes a refusal
// into the entries, and one that answers to fewer corners than were read.
pub fn answer_read(corners: &[i32; 2048], read: Result<usize, Refusal>, track: &mut [TrackPoint])
    requires { HeldBy read corners.now }
    ensures { track.new ≡ track_by read corners.now track.old }
{
    if let Ok(n) = read {
        answer_each(&Corners::new(corners, n), track);
    }
}

// Reads a text as `boundary::read` does, once whatever the number of points, and answers each point of a track as `boundary::query` answers it
// alone. A point out of range gets its refusal in its own room; where the text or a corner is refused, no point is touched. Ruled out: a
// program that writes into the track of a refused text, and one that leaves a point without its answer.
pub fn replot(
    text: &[u8],
    track: &mut [TrackPoint],
    table: &mut Table,
    corners: &mut [i32; 2048],
) -> Result<usize, Refusal>
    ensures { ReplotOf text.now track.old result track.new corners.new table.new }
{
    let read = boundary::read(text, table, corners);
    answer_read(corners, read, track);
    read
}
