// The boundary of a field: a text judged by book B and its corners taken, and the answer for a point. REQUIREMENT.md, section 9.
#![tactic(auto)]

ghost use Rattle.std.specs.Prelude.{◌≡◌, leb, pos, nat_abs, replicate};
ghost use Rattle.plane.specs.Lent.{corners_of};
ghost use Rattle.boundary.specs.Boundary.{refusal_number};
ghost use Rattle.boundary.specs.Exact.{HeldBy, in_range, answer_at, answer_by};
ghost use Rattle.boundary.specs.Calls.{LoadsB, bound_by, ReadOf, QueryOf};

use geometry::{Located, Point};
use plane::Corners;
use table::flat::Table;

mod walk; // walk.rt: the text judged and its numbers taken, in one walk

// Why a text or a point is refused.
#[derive(Clone, Copy, PartialEq, Eq)]
pub enum Refusal {
    // the text is not valid under book B
    NotValid = 31,
    // fewer than 3 or more than 1,024 corners
    Count = 32,
    // a number of a corner or the point that is out of range, or a corner's that is not in plain digits
    Range = 33,
}

impl Refusal {
    // The number of a refusal.
    pub fn number(self) -> u8
        ensures { result ≡ refusal_number self }
    {
        self as u8
    }
}

// Book B.
const BOOK: [u8; 166] =
    *b"rule form state key value next\n0 obj 0 corners r1 1\n0 obj 1 name str 2\n0 obj 2 - end -\n1 arr 0 - r2 0\n1 arr 0 - end -\n2 arr 0 - int 1\n2 arr 1 - int 2\n2 arr 2 - end -\n";

// Fills the lent table with that of book B.
fn load_b(table: &mut Table)
    ensures { LoadsB table.new }
{
    let _ = load::load(&BOOK, table);
}

fn clear(corners: &mut [i32; 2048])
    ensures { corners.new ≡ replicate 2048 (pos 0) }
{
    *corners = [0; 2048];
}

// How many corners a text with these numbers has, or why it is refused: 31, 32 and 33 in this order. A text that is not valid has none.
fn bound(numbers: Option<walk::Numbers>) -> Result<usize, Refusal>
    ensures { result ≡ bound_by numbers }
{
    let numbers = numbers.ok_or(Refusal::NotValid)?;
    if !(6..=2048).contains(&numbers.taken) {
        return Err(Refusal::Count);
    }
    if numbers.unfit {
        return Err(Refusal::Range);
    }
    Ok(numbers.taken / 2)
}

// Judges a text by book B and takes its corners, in one walk over its bytes: how many they are, or why the text is refused. The lent table
// holds book B's table then, and the lent corners their numbers, with zeros behind them; all zeros where the text or a corner is refused.
// Ruled out: a program that takes the corners of a text that is not valid, and one that finds fault with a number before it counts the corners.
// Stays: the C interface lends the memory and takes the count, so they stand side by side until `Corners::new` joins them.
pub fn read(text: &[u8], table: &mut Table, corners: &mut [i32; 2048]) -> Result<usize, Refusal>
    ensures { ReadOf text.now result corners.new table.new }
{
    load_b(table);
    clear(corners);
    let read = bound(walk::read_text(text, table, corners));
    if read.is_err() {
        clear(corners);
    }
    read
}

// A number from -1,000,000 to 1,000,000.
fn in_range(v: i32) -> bool
    ensures { result ≡ leb (nat_abs v) 1000000 }
{
    (-1000000..=1000000).contains(&v)
}

// Both numbers of a point are in range.
fn point_in_range(p: Point) -> bool
    ensures { result ≡ in_range p }
{
    in_range(p.x) && in_range(p.y)
}

// The answer for a point: 33 where the point is out of range.
pub fn answer_at(corners: &Corners, p: Point) -> Result<Located, Refusal>
    ensures { result ≡ answer_at (corners_of corners.now) p }
{
    if !point_in_range(p) {
        return Err(Refusal::Range);
    }
    Ok(corners.locate(p))
}

// The answer for a point, where `read` was read of a text: where that is a refusal, the refusal. Ruled out: a program that answers with another
// refusal, and one that answers to fewer corners than were read.
pub fn answer_by(
    corners: &[i32; 2048],
    read: Result<usize, Refusal>,
    p: Point,
) -> Result<Located, Refusal>
    requires { HeldBy read corners.now }
    ensures { result ≡ answer_by read corners.now p }
{
    answer_at(&Corners::new(corners, read?), p)
}

// Reads a text as `read` does, and answers for a point. Ruled out: a program that answers for a point that is out of range, and
// one that leaves the corners of a refused text in the lent memory.
pub fn query(
    text: &[u8],
    p: Point,
    table: &mut Table,
    corners: &mut [i32; 2048],
) -> Result<Located, Refusal>
    ensures { QueryOf text.now p result corners.new table.new }
{
    let n = read(text, table, corners)?;
    answer_at(&Corners::new(corners, n), p)
}
