// Frames: what each open value of a text holds, 96 bytes of a work buffer that the caller lends: REQUIREMENT.md, section 5.
// Levels are numbered from 1. Where the buffer has no frame of a level, nothing is read and nothing changes.
#![tactic(auto)]

mod close; // close.rt: the rules that a closed value fits
mod edge; // edge.rt: tests of one edge
mod key; // key.rt: a finished key
mod mask; // mask.rt: the kinds that a finished value fits
mod open; // open.rt: a fresh frame
mod value; // value.rt: a finished value

ghost use Rattle.std.specs.Prelude.{List, [], true, false, ◌≡◌, ℕ, ◌+◌, ◌≤◌, ◌++◌, length, take, drop, MatchOption};
ghost use Rattle.std.specs.Fn.{FnOnceReturnsAtMut};
ghost use Rattle.frame.specs.Edges.{edges_in};
ghost use Rattle.frame.specs.Frame.{frame_count, has_frame, frame_start, frame_at, put_frame, form_in};
ghost use Rattle.frame.specs.Ops.{opened, keyed, valued, closed};

use table::flat::Table;
use table::kind::{Finished, Form};

// The bytes of a frame.
pub const FRAME: usize = 96;

// The most levels.
pub const LEVELS: usize = 64;

// A frame: the form of its value, the current key, a mark, the keys seen, and from byte 32 on an object's fitting edges or an array's states.
pub type Frame = [u8; FRAME];

// States of a table's rules: bit q of rule r is bit 16 r + q.
pub type States = [u8; 64];

// The number of frames of a buffer of n bytes: one for each 96, at most 64.
// Ruled out: a program that counts a frame of fewer than 96 bytes at the end; one that counts a 65th.
pub fn frames(n: usize) -> usize
    ensures { result ≡ frame_count n }
{
    (n / FRAME).min(LEVELS)
}

// Where the frame of a level begins, if a buffer of n bytes has one.
fn place(n: usize, level: usize) -> Option<usize>
    ensures { MatchOption result (has_frame n level ≡ false) (λ a. (has_frame n level ≡ true) × (a ≡ frame_start level) × (a + 96 ≤ n)) }
{
    if 0 < level && level <= frames(n) {
        return Some(FRAME * (level - 1));
    }
    None
}

// The frame of a level.
fn frame_of(work: &[u8], level: usize) -> Option<&Frame>
    ensures { MatchOption result (frame_at work.now level ≡ []) (λ f. f.now ≡ frame_at work.now level) }
{
    let start = place(work.len(), level)?;
    work[start..].first_chunk()
}

// Changes the first frame of a buffer that has one.
fn change_first<F: FnOnce(&mut Frame)>(work: &mut [u8], change: F)
    requires callable { F.IsAlwaysCallable change }
    requires has_room { 96 ≤ length work.old }
    ensures { (op : List ℕ → List ℕ) → ((f g : List ℕ) → FnOnceReturnsAtMut F.FnOnce change f tt g → g ≡ op f) → work.new ≡ op (take 96 work.old) ++ drop 96 work.old }
{
    if let Some(frame) = work.first_chunk_mut() {
        change(frame);
    }
}

// Changes the frame of a level, and no other byte.
fn change_frame<F: FnOnce(&mut Frame)>(work: &mut [u8], level: usize, change: F)
    requires { F.IsAlwaysCallable change }
    ensures { (op : List ℕ → List ℕ) → ((f g : List ℕ) → FnOnceReturnsAtMut F.FnOnce change f tt g → g ≡ op f) → work.new ≡ put_frame work.old level (op (frame_at work.old level)) }
{
    if let Some(start) = place(work.len(), level) {
        change_first(&mut work[start..], change);
    }
}

// The form of the value that a frame is of: any number but that of an object counts as that of an array.
#[tactic(auto, unfolding(crate::specs::Frame::form_in, crate::specs::Frame::is_object))]
fn form_of(frame: &Frame) -> Form
    ensures { result ≡ form_in frame.now }
{
    if frame[0] == Form::Object.number() {
        Form::Object
    } else {
        Form::Array
    }
}

// The form of the value that is open at a level: an object or an array.
// Ruled out: a program that hands out the byte as it stands; one that reads the frame of the level below.
#[tactic(auto, unfolding(crate::specs::Frame::form_in, crate::specs::Frame::is_object))]
pub fn form_at(work: &[u8], level: usize) -> Form
    ensures { result ≡ form_in (frame_at work.now level) }
{
    match frame_of(work, level) {
        Some(frame) => form_of(frame),
        None => Form::Array,
    }
}

// Opens an object or an array at a level: all 96 bytes of its frame are written, and no other byte.
// Ruled out: a program that leaves edges or states of an earlier value; one that gives an array the states of `obj` rules.
pub fn open_level(work: &mut [u8], level: usize, form: Form, table: &Table)
    ensures { work.new ≡ put_frame work.old level (opened table.now.forms form) }
{
    change_frame(work, level, |frame| open::open_frame(frame, form, table));
}

// A finished key in the frame of a level: the number of a key of the book, or any number above 127 for a key that it does not have.
// Stays: a number, since with `Option<u8>` the number in a `Some` has to be tested against 128 as it is now, and `None` would be one case more.
// Ruled out: a program that leaves a repeated key without the mark; one that sets a bit for an unknown key.
pub fn key_level(work: &mut [u8], level: usize, key: u8)
    ensures { work.new ≡ put_frame work.old level (keyed key (frame_at work.old level)) }
{
    change_frame(work, level, |frame| key::key_frame(frame, key));
}

// A finished value in the frame of the level that it stands in: adds an object's fitting edges, replaces an array's states.
// Ruled out: a program that lets an unknown key match the edges without a key; one that adds an array's new states to the old.
pub fn value_level(work: &mut [u8], level: usize, table: &Table, v: Finished)
    ensures { work.new ≡ put_frame work.old level (valued (edges_in table.now) table.now.edge_kind table.now.forms v (frame_at work.old level)) }
{
    change_frame(work, level, |frame| value::value_frame(frame, table, v));
}

// Closes the value of a level: gives the rules that it fits, rule N at bit N, and writes nothing.
// Ruled out: a program that passes over a seen key without an edge; one that lets an `obj` rule fit an array.
pub fn close_level<'a>(work: &'a [u8], level: usize, table: &'a Table) -> u32
    ensures { result ≡ closed (edges_in table.now) table.now.forms table.now.ends (frame_at work.now level) }
{
    match frame_of(work, level) {
        Some(frame) => close::close_frame(frame, table),
        None => 0,
    }
}
