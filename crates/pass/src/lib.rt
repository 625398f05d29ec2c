// Bytes that only move a reader on: those that change where it stands in the record, and the plain characters of a key. Each kind is passed over
// in a loop of its own.
#![tactic(auto, unfolding(crate::specs::Pass::bits_over, crate::specs::Pass::is_reading, crate::specs::Pass::keeps_chars, crate::specs::Pass::passes, crate::specs::Pass::registers_after, crate::specs::Pass::registers_over,),)]

ghost use Rattle.std.specs.Prelude.{true, ◌≡◌, ◌+◌, ◌-◌, ◌≤◌, min, length};
ghost use Rattle.pass.specs.Pass.{bits_over, registers_of, registers_over, registers_after, is_quiet, passes, is_reading, keeps_chars, placed, passed_at, Stands, PassedTo, KeptTo};

use chars::class::Classes;
use json_text::lexer::{Act, Mode, Step, Top};
use json_text::number::{NumberMode, NumberMove};
use json_text::string::StringMode;
use progress::{Progress, key, register};
use whole::Decimal;

mod stay; // stay.rt: bytes that leave the mode as it is

// After the bytes passed over: what is known of the record, where that is in the piece, and the step that the lexer makes of the byte there, if there
// is one.
#[derive(Clone, Copy)]
pub struct Passed {
    pub progress: Progress,
    pub at: usize,
    pub step: Option<Step>,
}

// After the characters of a key: what is known of the record, and where that is in the piece.
#[derive(Clone, Copy)]
pub struct KeyRead {
    pub progress: Progress,
    pub at: usize,
}

// The registers of the open character and of the open number.
#[derive(Clone, Copy)]
struct Registers {
    bits: u32,
    high: u32,
    number: Decimal,
}

// A record that is read, and the bytes of a piece from a place on, up to the end of the piece or of the longest record.
#[derive(Clone, Copy)]
struct Stretch<'a> {
    known: Progress,
    piece: &'a [u8],
    from: usize,
    end: usize,
    ghost read: { is_reading known ≡ true },
    ghost starts: { from ≤ length piece.now },
    ghost ends: { end ≡ from + min (length piece.now - from) (16777216 - known.pos) },
}

// The bits of an open character, where some bytes that leave the mode as it is were passed over, or none.
fn bits_over(some: bool, m: Mode, bits: u32) -> u32
    ensures { result ≡ bits_over some m bits }
{
    if some {
        register::bits_in(m, bits, 0x20)
    } else {
        bits
    }
}

// The registers of a record.
fn registers_of(x: Progress) -> Registers
    ensures { result ≡ registers_of x }
{
    Registers {
        bits: x.bits,
        high: x.high,
        number: x.number,
    }
}

// The registers after some bytes that leave a mode as it is, which is none of a number, or after none.
fn registers_over(some: bool, m: Mode, g: Registers) -> Registers
    ensures { result ≡ registers_over some m g }
{
    Registers {
        bits: bits_over(some, m, g.bits),
        ..g
    }
}

// The registers after byte b that leads from one mode to another, but that b is still to be counted for the number.
// Stays: apart from `progress::advance`, which counts b at once: here the bytes of a number are counted together, at the end of their run.
fn registers_after(m: Mode, next: Mode, g: Registers, b: u8) -> Registers
    ensures { result ≡ registers_after m next g b }
{
    Registers {
        bits: register::bits_in(m, g.bits, b),
        high: register::high_in(m, g.bits, g.high, b),
        number: register::number_before(m, next, g.number),
    }
}

// The act changes neither levels, key nor frames.
fn is_quiet(a: Act) -> bool
    ensures { result ≡ is_quiet a }
{
    matches!(
        a,
        Act::Pass | Act::TextStart | Act::TextChar | Act::NumberStart | Act::NumberByte
    )
}

// The byte, which is no RS, ends no number, and its act is quiet.
fn passes(a: Act, ends: bool, b: u8) -> bool
    ensures { result ≡ passes a ends b }
{
    !ends && b != 0x1E && is_quiet(a)
}

// A byte of the record is more than counted. Ruled out: a head that is read as a record, and one that goes on to read a record with a fault.
pub fn reads_on(x: Progress) -> bool
    ensures { result ≡ is_reading x }
{
    !x.head && x.fault.is_none()
}

// The record is read, and stands where a character of a key is awaited.
fn keeps_chars(x: Progress) -> bool
    ensures { result ≡ keeps_chars x }
{
    matches!(x.mode, Mode::Key(StringMode::Char)) && reads_on(x)
}

// How far a piece of len bytes may be read before the record is too long.
fn reach(len: usize, from: usize, pos: u32) -> usize
    requires { from ≤ len }
    ensures { result ≡ from + min (len - from) (16777216 - pos) }
{
    from + (len - from).min(16777216u32.saturating_sub(pos) as usize)
}

// The record x at another mode, with other registers, and count bytes further.
fn place_at(x: Progress, m: Mode, g: Registers, count: usize, len: u8) -> Progress
    requires { x.pos + count ≤ 4294967295 }
    ensures { result ≡ placed x m g (x.pos + count) len }
{
    Progress {
        mode: m,
        pos: x.pos + count as u32,
        bits: g.bits,
        high: g.high,
        number: g.number,
        len: len,
        ..x
    }
}

impl<'a> Stretch<'a> {
    // The record, and the bytes of the piece from a place on.
    fn new(known: Progress, piece: &'a [u8], from: usize) -> Stretch<'a>
        requires { (is_reading known ≡ true) × (from ≤ length piece.now) }
        ensures { (result.known ≡ known) × (result.piece.now ≡ piece.now) × (result.from ≡ from) }
    {
        Stretch {
            known,
            piece,
            from,
            end: reach(piece.len(), from, known.pos),
        }
    }

    // The record at another mode, with other registers, where the bytes up to a place were passed over.
    fn passed(&self, m: Mode, g: Registers, at: usize, step: Option<Step>) -> Passed
        requires { (self.now.from ≤ at) × (at ≤ self.now.end) }
        ensures { result ≡ passed_at self.now.known m g self.now.from at step }
    {
        Passed {
            progress: place_at(self.known, m, g, at - self.from, self.known.len),
            at: at,
            step: step,
        }
    }

    // Passes over bytes of a number. They are counted at once where they lead to one mode.
    // Stays: a loop, since it goes on by runs of bytes and is left at two places, and so counts no index from one bound to another.
    fn number_to(
        &self,
        top: Top,
        first: NumberMode,
        g: Registers,
        start: usize,
        begin: usize,
    ) -> Passed
        requires { Stands self.now.known top self.now.piece.now self.now.from self.now.end (Mode.Number first) g start begin }
        ensures { PassedTo self.now.known top self.now.piece.now self.now.from result.progress result.at result.step }
    {
        let mut n = first;
        let mut g = g;
        let mut since = start;
        let mut i = begin;
        loop {
            let j = i + stay::number_len(n, &self.piece[i..self.end]);
            g.number = whole::run::over(n, g.number, &self.piece[since..j]);
            let Some(b) = self.piece.get(j) else {
                return self.passed(Mode::Number(n), g, j, None);
            };
            match lexer::number::number_move(n, *b) {
                NumberMove::Go(next) if j < self.end => {
                    n = next;
                    since = j;
                    i = j + 1;
                }
                _ => {
                    let st = lexer::step::number_step(n, top, *b);
                    return self.passed(Mode::Number(n), g, j, Some(st));
                }
            }
        }
    }

    // Passes over bytes. A number that begins is passed over in a loop of its own.
    // Stays: a loop, since it goes on by runs of bytes and is left at three places, and so counts no index from one bound to another.
    fn pass_to(&self, classes: &Classes, top: Top) -> Passed
        ensures { PassedTo self.now.known top self.now.piece.now self.now.from result.progress result.at result.step }
    {
        let mut m = self.known.mode;
        let mut g = registers_of(self.known);
        let mut since = self.from;
        let mut i = self.from;
        loop {
            if let Mode::Number(n) = m {
                return self.number_to(top, n, g, since, i);
            }
            let j = i + stay::stay_len(classes, m, &self.piece[i..self.end]);
            g = registers_over(i < j, m, g);
            let Some(b) = self.piece.get(j) else {
                return self.passed(m, g, j, None);
            };
            let st = lexer::step::step(classes, m, top, *b);
            if j == self.end || !passes(st.act, st.ends, *b) {
                return self.passed(m, g, j, Some(st));
            }
            g = registers_after(m, st.mode, g, *b);
            since = j;
            m = st.mode;
            i = j + 1;
        }
    }

    // Keeps the plain characters of a key.
    fn keep_to(&self, classes: &Classes, key: &mut [u8]) -> KeyRead
        requires { keeps_chars self.now.known ≡ true }
        ensures { KeptTo self.now.known self.now.piece.now self.now.from key.old result.progress result.at key.new }
    {
        let x = self.known;
        let at = self.from + stay::plain_len(classes, &self.piece[self.from..self.end]);
        let mut bits = x.bits;
        let mut len = x.len;
        for b in &self.piece[self.from..at] {
            key::keep_char(key, len, *b);
            len = key::key_len(len, u32::from(*b));
            bits = 0;
        }
        let g = Registers {
            bits: bits,
            ..registers_of(x)
        };
        KeyRead {
            progress: place_at(x, x.mode, g, at - self.from, len),
            at: at,
        }
    }
}

// Passes over the bytes of a piece that only change where the reader stands in the record. Ruled out: a pass over the RS that ends a record,
// and one over bytes past the longest record.
// Stays: the piece and a place in it, since the place that comes back is one in the piece: of a slice it would be counted from `from`, and added to it again.
pub fn pass(classes: &Classes, x: Progress, top: Top, piece: &[u8], from: usize) -> Passed
    requires { from ≤ length piece.now }
    ensures { PassedTo x top piece.now from result.progress result.at result.step }
{
    if reads_on(x) {
        return Stretch::new(x, piece, from).pass_to(classes, top);
    }
    Passed {
        progress: x,
        at: from,
        step: piece
            .get(from)
            .map(|b| lexer::step::step(classes, x.mode, top, *b)),
    }
}

// Keeps the plain characters of an open key. Ruled out: a key of which a character past the 32nd is kept, and one without its first.
// Stays: the piece and a place in it, as in `pass`.
pub fn keep(classes: &Classes, x: Progress, key: &mut [u8], piece: &[u8], from: usize) -> KeyRead
    requires { from ≤ length piece.now }
    ensures { KeptTo x piece.now from key.old result.progress result.at key.new }
{
    if keeps_chars(x) {
        return Stretch::new(x, piece, from).keep_to(classes, key);
    }
    KeyRead {
        progress: x,
        at: from,
    }
}
