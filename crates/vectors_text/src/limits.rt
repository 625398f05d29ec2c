// Records around the limits of length and depth, which are made here: the verdicts of each, after a label with its length, or with its levels
// and the bytes of the buffer.
use crate::long::Text;
use crate::{long, nest};
use table::flat::Table;

// Any tree of arrays, and of objects with the key a; strings and numbers in arrays.
fn array_book(t: &mut Table) {
    let _ = load::load(
        b"rule form state key value next\n0 arr 0 - str 0\n0 arr 0 - num 0\n0 arr 0 - r0 0\n0 arr 0 - r1 0\n0 arr 0 - end -\n1 obj 0 a r0 1\n1 obj 0 a r1 1\n1 obj 0 - end -\n1 obj 1 - end -\n",
        t,
    );
}

// Any tree of objects with the key a.
fn object_book(t: &mut Table) {
    let _ = load::load(
        b"rule form state key value next\n0 obj 0 a r0 1\n0 obj 0 - end -\n0 obj 1 - end -\n",
        t,
    );
}

// The most bytes of a record, and one less.
const LONGEST: u32 = 16777216;

const SHORTER: u32 = 16777215;

// Records that are JSON as long as they are not too long.
fn sound_ones(rt: &impl Print, t: &Table) {
    Text::new(b"\x1e[\"", b"a", b"\"]").run(rt, t, b"string", SHORTER);
    Text::new(b"\x1e", b" ", b"[]").run(rt, t, b"blanks-before", LONGEST);
    Text::new(b"\x1e[]", b"\n", b"").run(rt, t, b"blanks-behind", LONGEST);
    Text::new(b"\x1e", b"1", b"").run(rt, t, b"number", LONGEST);
    Text::new(b"\x1e[", b"1,", b"1]").run(rt, t, b"array", SHORTER);
}

// An RS, and the openings of 64 levels.
const DEEP: [u8; 65] = *b"\x1e[[[[[[[[[[[[[[[[[[[[[[[[[[[[[[[[[[[[[[[[[[[[[[[[[[[[[[[[[[[[[[[[";

// Records whose last byte is a fault, that are lost from the first bytes on, or that break off.
fn broken_ones(rt: &impl Print, t: &Table) {
    Text::new(b"\x1e[", b" ", b"x").run(rt, t, b"malformed-last", LONGEST);
    Text::new(b"\x1ex", b" ", b"").run(rt, t, b"malformed-first", LONGEST);
    Text::new(&DEEP, b" ", b"[").run(rt, t, b"too-deep-last", LONGEST);
    Text::new(b"\x1e", b"[", b"").run(rt, t, b"too-deep-first", LONGEST);
    Text::new(b"\x1e[\"", b"a", b"").run(rt, t, b"broken-off", LONGEST);
}

// Buffers of k frames to the byte, with all but a byte of one more, and beyond 64 frames: the bytes of each, and the least number of levels.
const BUFFERS: [(usize, usize); 12] = [
    (96, 1),
    (191, 1),
    (192, 1),
    (287, 1),
    (5952, 61),
    (6047, 61),
    (6048, 62),
    (6143, 62),
    (6144, 63),
    (6239, 63),
    (6240, 63),
    (12288, 63),
];

// All of them.
pub fn run(rt: &impl Print) {
    let mut t = Table::empty();
    array_book(&mut t);
    let mut u = Table::empty();
    object_book(&mut u);
    for (size, least) in BUFFERS {
        nest::run(rt, &t, &u, size, least);
    }
    nest::run_texts(rt, &t);
    nest::pairs(rt, &t);
    sound_ones(rt, &t);
    broken_ones(rt, &t);
    long::pairs(rt, &t);
}
