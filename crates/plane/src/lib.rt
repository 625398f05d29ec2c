// Where a point lies to the corners of a boundary, and which corner is nearest.
#![tactic(auto)]

ghost use Rattle.std.specs.Prelude.{◌≡◌, ◌+◌, ◌*◌, ◌/◌, ◌<◌, ◌-ℤ◌, ◌*ℤ◌, length};
ghost use Rattle.geometry.specs.Plane.{distance};
ghost use Rattle.geometry.specs.Tests.{cross, between};
ghost use Rattle.coordinate.specs.Coordinate.{InRange};
ghost use Rattle.plane.specs.Corners.{corner_at, Held, PointInRange};

use geometry::{Located, Place, Point};

// Above every squared distance of two points in range.
const FARTHER: i64 = 8_000_000_000_001;

// The corners of a boundary, in lent memory: two numbers each, one after the other.
#[derive(Clone, Copy)]
pub struct Corners<'a> {
    numbers: &'a [i32],
    pub ghost held: { Held numbers.now (length numbers.now / 2) },
}

impl<'a> Corners<'a> {
    ghost use Rattle.std.specs.Prelude.{◌≡◌, ◌+◌, ◌*◌, ◌<◌};
    ghost use Rattle.geometry.specs.Tests.{located};
    ghost use Rattle.plane.specs.Corners.{corner_at, corners_in, Held, PointInRange};
    ghost use Rattle.plane.specs.Lent.{corners_of};

    // The first n corners in lent memory.
    pub fn new(memory: &'a [i32], n: usize) -> Corners<'a>
        requires { Held memory.now n }
        ensures { corners_of result ≡ corners_in memory.now n }
    {
        Corners {
            numbers: &memory[..2 * n],
        }
    }

    // Corner i: its numbers stand at 2 i and 2 i + 1.
    // Stays: the C interface lends the corners as a row of numbers, and not as points.
    fn corner(&self, i: usize) -> Point
        requires { 2 * i + 1 < length self.now.numbers.now }
        ensures { result ≡ corner_at self.now.numbers.now i }
    {
        Point {
            x: self.numbers[2 * i],
            y: self.numbers[2 * i + 1],
        }
    }

    // Where p lies to the boundary, and which corner is nearest. Among the programs that this rules out: one that forgets the side from the
    // last corner to the first, and one that gives the higher number of two corners that are as near.
    pub fn locate(&self, p: Point) -> Located
        requires { PointInRange p }
        ensures { result ≡ located (corners_of self.now) p }
    {
        let n = self.numbers.len() / 2;
        let mut s = Scan::begun(self.corner(n - 1));
        for i in 0..n {
            let c = self.corner(i);
            s = s.stepped(i, c, p);
        }
        s.answer()
    }
}

// What is known of the sides so far: the corner before the next one, whether the point is on one of them, whether an odd number of them
// crosses, and the number of the nearest corner with its squared distance.
#[derive(Clone, Copy)]
struct Scan {
    before: Point,
    edge: bool,
    odd: bool,
    nearest: usize,
    distance: i64,
}

impl Scan {
    ghost use Rattle.std.specs.Prelude.{◌≡◌};
    ghost use Rattle.plane.specs.Corners.{PointInRange};
    ghost use Rattle.plane.specs.Scan.{begun, stepped, answer};

    // What is known before the first corner. The last one stands before it.
    fn begun(last: Point) -> Scan
        ensures { result ≡ begun last }
    {
        Scan {
            before: last,
            edge: false,
            odd: false,
            nearest: 0,
            distance: FARTHER,
        }
    }

    // What is known after corner i, which is c.
    // Stays: points in range by a clause, here and in what is called, since the definitions are over all points: with a type for those in range they
    // would take a proof with each corner.
    fn stepped(self, i: usize, c: Point, p: Point) -> Scan
        requires { PointInRange self.before × PointInRange c × PointInRange p }
        ensures { result ≡ stepped p i c self }
    {
        let t = Triangle::new(self.before, c, p);
        let s = Scan {
            before: c,
            edge: self.edge | t.on_segment(),
            odd: self.odd != t.crosses(),
            ..self
        };
        let far = distance(c, p);
        if far < self.distance {
            Scan {
                nearest: i,
                distance: far,
                ..s
            }
        } else {
            s
        }
    }

    // The answer, after the last corner.
    fn answer(self) -> Located
        ensures { result ≡ answer self }
    {
        let place = if self.edge {
            Place::Edge
        } else if self.odd {
            Place::Inside
        } else {
            Place::Outside
        };
        Located {
            place,
            nearest: self.nearest,
        }
    }
}

// a less b. It always fits.
fn difference(a: i32, b: i32) -> i64
    ensures { result ≡ a -ℤ b }
{
    a as i64 - b as i64
}

// The product of a less b and c less d.
fn product(a: i32, b: i32, c: i32, d: i32) -> i64
    requires { InRange a × InRange b × InRange c × InRange d }
    ensures { result ≡ (a -ℤ b) *ℤ (c -ℤ d) }
{
    difference(a, b) * difference(c, d)
}

// Twice the area of the triangle a, b, p, with a sign.
fn cross(a: Point, b: Point, p: Point) -> i64
    requires { PointInRange a × PointInRange b × PointInRange p }
    ensures { result ≡ cross a b p }
{
    product(b.x, a.x, p.y, a.y) - product(b.y, a.y, p.x, a.x)
}

// The squared distance of a corner and a point.
fn distance(c: Point, p: Point) -> i64
    requires { PointInRange c × PointInRange p }
    ensures { result ≡ distance c p }
{
    product(c.x, p.x, c.x, p.x) + product(c.y, p.y, c.y, p.y)
}

// p is from a to b, or from b to a.
fn between(a: i32, b: i32, p: i32) -> bool
    ensures { result ≡ between a b p }
{
    ((a <= p) & (p <= b)) | ((b <= p) & (p <= a))
}

// The segment from a to b, and a point p, with twice the area of the triangle of the three.
#[derive(Clone, Copy)]
struct Triangle {
    a: Point,
    b: Point,
    p: Point,
    area: i64,
    ghost twice: { area ≡ cross a b p },
}

impl Triangle {
    ghost use Rattle.std.specs.Prelude.{◌≡◌};
    ghost use Rattle.geometry.specs.Tests.{on_segment, crosses};
    ghost use Rattle.plane.specs.Corners.{PointInRange};

    fn new(a: Point, b: Point, p: Point) -> Triangle
        requires { PointInRange a × PointInRange b × PointInRange p }
        ensures { (result.a ≡ a) × (result.b ≡ b) × (result.p ≡ p) }
    {
        let area = cross(a, b, p);
        Triangle { a, b, p, area }
    }

    // p lies on the segment from a to b.
    fn on_segment(self) -> bool
        ensures { result ≡ on_segment self.a self.b self.p }
    {
        let Triangle { a, b, p, area } = self;
        area == 0 && (between(a.x, b.x, p.x) & between(a.y, b.y, p.y))
    }

    // The segment from a to b has exactly one end above the height of p, and crosses that height to the right of p.
    fn crosses(self) -> bool
        ensures { result ≡ crosses self.a self.b self.p }
    {
        let Triangle { a, b, p, area } = self;
        if a.y <= p.y {
            (p.y < b.y) & (0 < area)
        } else {
            (b.y <= p.y) & (area < 0)
        }
    }
}
