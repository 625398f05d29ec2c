// Records of many levels: arrays, objects, and arrays and objects in turn, all closed or all left open.
use crate::say::Entries;
use crate::{WORK, say};
use arrayvec::ArrayVec;
use entries::feeds;
use reader::Reader;
use table::flat::Table;

#[derive(Clone, Copy)]
enum Shape {
    Arrays,
    Objects,
    InTurn,
}

impl Shape {
    // The level inside i others is an object.
    fn is_object(self, i: usize) -> bool {
        match self {
            Shape::Arrays => false,
            Shape::Objects => true,
            Shape::InTurn => i % 2 == 1,
        }
    }

    fn name(self) -> &'static str {
        match self {
            Shape::Arrays => "arrays",
            Shape::Objects => "objects",
            Shape::InTurn => "in-turn",
        }
    }
}

// A stream that is made: none here has more bytes.
type Text = ArrayVec<u8, 2048>;

fn put(text: &mut Text, bytes: &[u8]) {
    let _ = text.try_extend_from_slice(bytes);
}

// An RS, and the openings of so many levels. An object gets a key where another level comes.
fn open_levels(text: &mut Text, shape: Shape, levels: usize) {
    put(text, b"\x1e");
    for i in 0..levels {
        if !shape.is_object(i) {
            put(text, b"[");
        } else if i + 1 < levels {
            put(text, b"{\"a\":");
        } else {
            put(text, b"{");
        }
    }
}

fn close_levels(text: &mut Text, shape: Shape, levels: usize) {
    for i in (0..levels).rev() {
        put(text, if shape.is_object(i) { b"}" } else { b"]" });
    }
}

// Judges the text as a stream, and says its entries after a label.
fn judge(rt: &impl Print, table: &Table, work: &mut [u8], text: &Text, label: &[u8]) {
    let mut entries = Entries::none();
    entries.made = feeds::judge(table, text.as_slice(), 0, work, &mut entries.out);
    entries.say(rt, label);
}

// A record of so many levels, alone in its stream: left open, and closed.
fn run_shape(rt: &impl Print, table: &Table, work: &mut [u8], shape: Shape, levels: usize) {
    let name = shape.name();
    let size = work.len();
    let mut text = Text::new();
    open_levels(&mut text, shape, levels);
    let _ = print!(rt; "{name}-{levels}-open-{size}");
    judge(rt, table, work, &text, b"");
    close_levels(&mut text, shape, levels);
    let _ = print!(rt; "{name}-{levels}-closed-{size}");
    judge(rt, table, work, &text, b"");
}

// Records of four numbers of levels from the least on, on a buffer of so many bytes. The tables are of arrays, and of objects.
pub fn run(rt: &impl Print, arrays: &Table, objects: &Table, size: usize, least: usize) {
    let mut space = [0u8; 2 * WORK];
    if size <= space.len() && least <= 64 {
        let work = &mut space[..size];
        for levels in least..least + 4 {
            run_shape(rt, arrays, work, Shape::Arrays, levels);
            run_shape(rt, objects, work, Shape::Objects, levels);
            run_shape(rt, arrays, work, Shape::InTurn, levels);
        }
    }
}

// A record on one frame, which is its own label.
fn run_text(rt: &impl Print, table: &Table, record: &[u8]) {
    let mut work = [0u8; Reader::FRAME];
    let mut text = Text::new();
    put(&mut text, b"\x1e");
    put(&mut text, record);
    judge(rt, table, &mut work, &text, record);
}

// Second openings on one frame: too deep where a value can stand, malformed where none can.
pub fn run_texts(rt: &impl Print, table: &Table) {
    run_text(rt, table, b"[[");
    run_text(rt, table, b"[{");
    run_text(rt, table, b"{[");
    run_text(rt, table, b"{\"a\"[");
    run_text(rt, table, b"{\"a\":[");
    run_text(rt, table, b"[1[");
    run_text(rt, table, b"[]{");
}

// Arrays left open, and after them 64 that are closed.
fn pair(rt: &impl Print, table: &Table, label: &[u8], levels: usize) {
    let mut work = [0u8; 2 * WORK];
    let mut text = Text::new();
    open_levels(&mut text, Shape::Arrays, levels);
    open_levels(&mut text, Shape::Arrays, 64);
    close_levels(&mut text, Shape::Arrays, 64);
    judge(rt, table, &mut work, &text, label);
}

// A record that fails, and one after it: the second is judged as it is alone.
pub fn pairs(rt: &impl Print, table: &Table) {
    pair(rt, table, b"alone", 0);
    pair(rt, table, b"broken-off-then-sound", 64);
    pair(rt, table, b"too-deep-then-sound", 65);
    pair(rt, table, b"far-too-deep-then-sound", 1000);
}
