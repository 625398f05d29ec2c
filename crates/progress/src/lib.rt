// The open record, byte by byte: what the reader knows of it, its frames and the bytes of its key aside.
#![tactic(auto, unfolding(crate::specs::Act::key_task, crate::specs::Act::kept_in, crate::specs::Act::kept_key_len, crate::specs::Act::number_kind, crate::specs::Act::open_fault, crate::specs::Act::open_level, crate::specs::Progress::advanced, crate::specs::Progress::judged, crate::specs::Progress::sound, crate::specs::Progress::whole, crate::specs::Progress::whole_number,),)]

ghost use Rattle.std.specs.Prelude.{◌≡◌};
ghost use Rattle.progress.specs.Fresh.{fresh_progress};
ghost use Rattle.progress.specs.Progress.{counted, faulted, moved, acted, sound, advanced, fault_verdict, judged};

use json_text::lexer::{Awaited, Mode, Step};
use table::kind::{Form, Scalar};
use verdict::Verdict;
use whole::Decimal;

pub mod act; // act.rt: what an act of the lexer does, part by part
pub mod key; // key.rt: the characters kept of the open key
pub mod register; // register.rt: the registers of the open character and the open number
pub mod ending; // ending.rt: the verdict of a record without a fault that ends

// A fault of a record, with the place of its byte where the verdict names it.
#[derive(Clone, Copy)]
pub enum Fault {
    Malformed(u32),
    TooDeep(u32),
    TooLong,
}

// The verdict of a record with a fault. Ruled out: 12 for a malformed record, and a place counted from 1.
impl From<Fault> for Verdict {
    ghost from_gives = { λ fault verdict. verdict ≡ fault_verdict fault };

    fn from(fault: Fault) -> Verdict {
        match fault {
            Fault::Malformed(place) => Verdict::Malformed(place),
            Fault::TooDeep(place) => Verdict::TooDeep(place),
            Fault::TooLong => Verdict::TooLong,
        }
    }
}

// What is known of the open record.
#[derive(Clone, Copy)]
pub struct Progress {
    // how many values are open
    pub level: usize,
    // how many bytes were read
    pub pos: u32,
    // of an open character: its bits, and the high surrogate before it
    pub bits: u32,
    pub high: u32,
    // of an open number: its digits and its exponent
    pub number: Decimal,
    // where the next byte stands
    pub mode: Mode,
    // the first fault, if there is one
    pub fault: Option<Fault>,
    // before the first RS of the stream
    pub head: bool,
    // how many characters of the open key are kept; 33 where it can be no key of a book
    // Stays: a number, since docs/LIMITS.md names 33 as the most that it may be in a reader, and refusal 23 is for one above.
    pub len: u8,
}

// What is to be done to root, key and frames at a byte.
#[derive(Clone, Copy)]
pub enum Task {
    Idle,
    // a record begins: its root and its key are fresh
    Begin,
    // a character of the key
    Put(u8),
    // the key is finished
    Named,
    // an object or an array is opened
    Open(Form),
    // a scalar is finished
    Finish(Scalar),
    Close,
    // a scalar is finished, and then the value that it stands in is closed
    FinishClose(Scalar),
}

#[derive(Clone, Copy)]
pub struct Advanced {
    pub progress: Progress,
    pub task: Task,
}

// Nothing is read of a record, in the head or after an RS. Ruled out: a record that begins with an open value, and one that begins with a fault.
pub fn fresh(head: bool) -> Progress
    ensures { result ≡ fresh_progress head }
{
    Progress {
        mode: Mode::At(Awaited::Value),
        fault: None,
        head: head,
        level: 0,
        pos: 0,
        bits: 0,
        high: 0,
        number: whole::fresh(),
        len: 0,
    }
}

// A byte that is counted, and no more.
fn counted(x: Progress) -> Advanced
    ensures { result ≡ counted x }
{
    Advanced {
        progress: Progress {
            pos: whole::bump(x.pos),
            ..x
        },
        task: Task::Idle,
    }
}

// The byte is the record's first fault.
fn faulted(x: Progress, f: Fault) -> Advanced
    ensures { result ≡ faulted x f }
{
    counted(Progress {
        fault: Some(f),
        ..x
    })
}

// The record after byte b, at a mode, with so many levels and so long a key.
fn moved(x: Progress, b: u8, m: Mode, level: usize, len: u8) -> Progress
    ensures { result ≡ moved x b m level len }
{
    let number = register::number_before(x.mode, m, x.number);
    Progress {
        mode: m,
        level: level,
        pos: whole::bump(x.pos),
        bits: register::bits_in(x.mode, x.bits, b),
        high: register::high_in(x.mode, x.bits, x.high, b),
        number: register::number_to(m, number, b),
        len: len,
        ..x
    }
}

// What a step of the lexer does to the record. There is one call of `moved`, so that it is inlined.
// Stays: a function of four, as `sound` and `advance`: a method would take the record and the same other three.
fn acted(x: Progress, frames: usize, b: u8, st: Step) -> Advanced
    ensures { result ≡ acted st.act st.ends x frames b st.mode }
{
    match act::first_fault(st.act, x.level, frames, x.pos) {
        None => {
            let c = register::char_in(x.mode, x.bits, x.high, b);
            let level = act::level_after(st.act, x.level, frames);
            Advanced {
                progress: moved(x, b, st.mode, level, act::len_after(st.act, x.len, c)),
                task: act::task_of(st.act, st.ends, x.number, x.len, c),
            }
        }
        Some(f) => faulted(x, f),
    }
}

// A byte of a record without a fault so far.
fn sound(x: Progress, frames: usize, b: u8, st: Step) -> Advanced
    ensures { result ≡ sound x frames b st }
{
    if x.pos < 16777216 {
        acted(x, frames, b, st)
    } else {
        faulted(x, Fault::TooLong)
    }
}

// A byte that ends no record, of which the lexer makes a step: the record after it, and what is to be done to its root, key and frames.
// Ruled out: an RS that keeps levels of the record before it, and one that keeps a fault.
pub fn advance(x: Progress, frames: usize, b: u8, st: Step) -> Advanced
    ensures { result ≡ advanced x frames b st }
{
    if b == 0x1E {
        return Advanced {
            progress: fresh(false),
            task: Task::Begin,
        };
    }
    if x.head || x.fault.is_some() {
        return counted(x);
    }
    sound(x, frames, b, st)
}

// The verdict of a record that ends here.
pub fn judge(x: Progress, root: bool) -> Verdict
    ensures { result ≡ judged x root }
{
    if x.head {
        return Verdict::Head;
    }
    match x.fault {
        None => ending::whole(x, root),
        Some(f) => f.into(),
    }
}
