// What an act of the lexer does to the open record, part by part: the first fault, the levels, the characters kept of the key, the task.
ghost use Rattle.std.specs.Prelude.{◌≡◌, ◌-◌};
ghost use Rattle.progress.specs.Act.{open_fault, open_level, key_task, first_fault, level_after, len_after, number_kind, scalar_of, number_task, closing, task_of};

use super::key::key_len;
use super::{Fault, Task};
use json_text::lexer::Act;
use json_text::word::Word;
use table::kind::{Form, Scalar};
use whole::Decimal;

// A value that a byte at pos opens is too deep where the buffer has no frame for it.
// Stays: the level and the frames, since nothing else of a record and its buffer is needed here, and no method of `Progress` has the frames.
fn open_fault(level: usize, frames: usize, pos: u32) -> Option<Fault>
    ensures { result ≡ open_fault level frames pos }
{
    if level < frames {
        None
    } else {
        Some(Fault::TooDeep(pos))
    }
}

// How many values are open after a byte that opens one: one more, where the buffer has a frame for it.
fn open_level(level: usize, frames: usize) -> usize
    ensures { result ≡ open_level level frames }
{
    if level < frames { level + 1 } else { level }
}

// One level less; without an open value there is none to close.
pub fn down(level: usize) -> usize
    ensures { result ≡ level - 1 }
{
    level.saturating_sub(1)
}

// A character below 128 is put to the key where fewer than 32 are kept; any other is not.
fn key_task(len: u8, c: u32) -> Task
    ensures { result ≡ key_task len c }
{
    if len < 32 && c < 128 {
        Task::Put(c as u8)
    } else {
        Task::Idle
    }
}

// The kind of a number that ends.
fn number_kind(d: Decimal) -> Scalar
    ensures { result ≡ number_kind d }
{
    if whole::is_whole(d) {
        Scalar::Int
    } else {
        Scalar::Num
    }
}

// The scalar that a word is.
// Stays: a function, since `From` has its impl in the crate of one of the two types, and of `json_text` and `table` neither builds on the other.
fn scalar_of(w: Word) -> Scalar
    ensures { result ≡ scalar_of w }
{
    match w {
        Word::Null => Scalar::Null,
        Word::True => Scalar::True,
        Word::False => Scalar::False,
    }
}

// The number that ended is finished; where none did, nothing is done.
// Stays: `ends` beside d, since both are there at each byte: an Option would be made of the two to be taken apart at once.
fn number_task(ends: bool, d: Decimal) -> Task
    ensures { result ≡ number_task ends d }
{
    if ends {
        Task::Finish(number_kind(d))
    } else {
        Task::Idle
    }
}

// The innermost open value is closed, after the number that ended if one did.
// Stays: `ends` beside d, as in `number_task`.
fn closing(ends: bool, d: Decimal) -> Task
    ensures { result ≡ closing ends d }
{
    if ends {
        Task::FinishClose(number_kind(d))
    } else {
        Task::Close
    }
}

// The fault of an act at pos, if it is one.
pub fn first_fault(a: Act, level: usize, frames: usize, pos: u32) -> Option<Fault>
    ensures { result ≡ first_fault a level frames pos }
{
    match a {
        Act::Fault => Some(Fault::Malformed(pos)),
        Act::OpenArray | Act::OpenObject => open_fault(level, frames, pos),
        _ => None,
    }
}

// How many values are open after an act.
pub fn level_after(a: Act, level: usize, frames: usize) -> usize
    ensures { result ≡ level_after a level frames }
{
    match a {
        Act::OpenArray | Act::OpenObject => open_level(level, frames),
        Act::Close => down(level),
        _ => level,
    }
}

// How many characters of the key are kept after an act; c is the one that it finishes.
pub fn len_after(a: Act, len: u8, c: u32) -> u8
    ensures { result ≡ len_after a len c }
{
    match a {
        Act::KeyStart => 0,
        Act::KeyChar => key_len(len, c),
        _ => len,
    }
}

// What is to be done at an act, which ends the number d or not.
// Stays: `ends` beside d, as in `number_task`.
pub fn task_of(a: Act, ends: bool, d: Decimal, len: u8, c: u32) -> Task
    ensures { result ≡ task_of a ends d len c }
{
    match a {
        Act::Pass => number_task(ends, d),
        Act::OpenArray => Task::Open(Form::Array),
        Act::OpenObject => Task::Open(Form::Object),
        Act::Close => closing(ends, d),
        Act::KeyChar => key_task(len, c),
        Act::KeyEnd => Task::Named,
        Act::TextEnd => Task::Finish(Scalar::Str),
        Act::WordEnd(w) => Task::Finish(scalar_of(w)),
        _ => Task::Idle,
    }
}
