// A table in its bytes: reads and writes of its numbers. `specs/Flat.antt` says where they stand.
ghost use Rattle.std.specs.Prelude.{◌≡◌, ℕ, ◌+◌, ◌*◌, ◌<◌, ◌≤◌, true, length, get_or, eqb};
ghost use Rattle.laws.specs.Bits.{bit_at};
ghost use Rattle.table.specs.Bytes.{bytes_of};
ghost use Rattle.table.specs.Flat.{part, table_in, empty_table};
ghost use Rattle.table.specs.Keys.{key_at};
ghost use Rattle.table.specs.Kind.{form_number};
ghost use Rattle.table.specs.Cells.{cell_at, with_edge, written, with_key, with_end};

use crate::bits;
use crate::kind::Form;
use std::cmp;
use std::marker::Model;

// The bytes of a table.
pub const SIZE: usize = 7920;

// Where each array begins. The counts of edges (two bytes) and keys stand at 0 to 2.
// Stays: an array for each number of an edge, since this is the layout of the bytes that a caller lends through the C interface: docs/LIMITS.md.
pub const RULE: usize = 16;

pub const STATE: usize = 528;

pub const KEY: usize = 1040;

pub const KIND: usize = 1552;

pub const NEXT: usize = 2064;

pub const LINE_LOW: usize = 2576;

pub const LINE_HIGH: usize = 3088;

pub const KEY_BYTES: usize = 3600;

pub const KEY_LEN: usize = 7696;

pub const END: usize = 7824;

pub const FORM: usize = 7888;

// A table: the numbers of a rule book. It has 7,920 bytes in C, and no more.
#[repr(C)]
#[derive(Clone, Copy)]
pub struct Table {
    bytes: [u8; SIZE],
}

impl Model for Table {
    ghost use Rattle.std.specs.Prelude.{List, ℕ};
    ghost use Rattle.std.proofs.Common.{ap};
    ghost use Rattle.table.specs.Table as specs_table;
    ghost use Rattle.table.specs.Flat.{table_in};
    ghost use Rattle.table.specs.Bytes.{TableBytes, bytes_of};
    ghost use Rattle.table.specs.Inverse.{bytes_of-inside};

    ghost Value = { specs_table.Table };

    ghost view = { λ t. table_in t.bytes };

    ghost invariant = { λ t. TableBytes t.bytes };

    ghost inverse = { λ t. record { bytes = bytes_of t } };

    ghost inverse_ok = { λ a h. ap (λ (l : List ℕ). record { bytes = l }) (bytes_of-inside a.bytes h) };
}

// The table of 7,920 bytes: any bytes are one.
impl From<[u8; SIZE]> for Table {
    ghost from_gives = { λ bytes t. t ≡ table_in bytes };

    fn from(bytes: [u8; SIZE]) -> Table {
        Table { bytes }
    }
}

// The numbers of an edge as a table stores them, but for its line. A kind is stored by its code; the key of an edge without one is 128.
// Stays: a key and a kind by their bytes, as the C interface lays them out. The bytes that a caller lends may be any, and each table is read as it is.
#[derive(Clone, Copy, PartialEq)]
pub struct Cell {
    pub rule: u8,
    pub state: u8,
    pub key: u8,
    pub kind: u8,
    pub next: u8,
}

// Byte i of the N bytes from place AT on; 0 past the last of them.
// Stays: a clause for a part that lies in the table. Both numbers are constants at each call, which shows it there; without it the sum may overflow and
// the part be none, and the function has to say what then.
#[tactic(auto, unfolding(crate::specs::Flat::part))]
fn byte_in<const AT: usize, const N: usize>(bytes: &[u8; SIZE], i: usize) -> u8
    requires { AT + N ≤ 7920 }
    ensures { result ≡ get_or (part bytes.now AT N) i 0 }
{
    bytes[AT..AT + N].get(i).copied().unwrap_or(0)
}

// The bytes from place a on become those of a key.
// Stays: byte by byte in a loop. `copy_from_slice` calls `memmove`, which the archive for C would then need from outside.
fn write_key(bytes: &mut [u8; SIZE], a: usize, key: &[u8])
    requires { a + length key.now ≤ 7920 }
    ensures { bytes.new ≡ written bytes.old a key.now }
{
    for (i, b) in key.iter().enumerate() {
        bytes[a + i] = *b;
    }
}

impl Table {
    // The bytes of a table.
    pub fn bytes(&self) -> &[u8; SIZE]
        ensures { result.now ≡ bytes_of self.now }
    {
        &self.bytes
    }

    // The empty table, which a refused book has: every byte is 0.
    pub fn empty() -> Table
        ensures { result ≡ empty_table }
    {
        Table { bytes: [0; SIZE] }
    }
}

#[tactic(auto, unfolding(crate::specs::Flat::table_in))]
impl Table {
    // The counts of edges and keys.
    pub fn edges(&self) -> usize
        ensures { result ≡ self.now.edges }
    {
        self.bytes[0] as usize + 256 * self.bytes[1] as usize
    }

    pub fn keys(&self) -> u8
        ensures { result ≡ self.now.keys }
    {
        self.bytes[2]
    }

    pub fn rule(&self, e: usize) -> u8
        ensures { result ≡ get_or self.now.edge_rule e 0 }
    {
        byte_in::<RULE, 512>(&self.bytes, e)
    }

    pub fn state(&self, e: usize) -> u8
        ensures { result ≡ get_or self.now.edge_state e 0 }
    {
        byte_in::<STATE, 512>(&self.bytes, e)
    }

    // The key of an edge.
    // Stays: a number, the byte of the layout, as in `Cell`.
    pub fn key(&self, e: usize) -> u8
        ensures { result ≡ get_or self.now.edge_key e 0 }
    {
        byte_in::<KEY, 512>(&self.bytes, e)
    }

    // The kind of an edge, by its code.
    // Stays: a number, the byte of the layout, as in `Cell`.
    pub fn kind(&self, e: usize) -> u8
        ensures { result ≡ get_or self.now.edge_kind e 0 }
    {
        byte_in::<KIND, 512>(&self.bytes, e)
    }

    pub fn next(&self, e: usize) -> u8
        ensures { result ≡ get_or self.now.edge_next e 0 }
    {
        byte_in::<NEXT, 512>(&self.bytes, e)
    }

    // The form of a rule; 0 for a rule past the forms.
    // Stays: a number, since the table's byte is one, which may be any, and 0 there means no lines.
    pub fn form(&self, r: usize) -> u8
        ensures { result ≡ get_or self.now.forms r 0 }
    {
        byte_in::<FORM, 32>(&self.bytes, r)
    }

    pub fn end(&self, i: usize) -> u8
        ensures { result ≡ get_or self.now.ends i 0 }
    {
        byte_in::<END, 64>(&self.bytes, i)
    }

    pub fn len(&self, k: usize) -> u8
        ensures { result ≡ get_or self.now.key_len k 0 }
    {
        byte_in::<KEY_LEN, 128>(&self.bytes, k)
    }
}

impl Table {
    // Rule r is of a form. A rule that is past the forms is of none.
    // Ruled out: a program that takes a rule without lines for one of the form; one that takes an `arr` rule for an `obj` rule.
    pub fn has_form(&self, r: usize, form: Form) -> bool
        ensures { result ≡ eqb (get_or self.now.forms r 0) (form_number form) }
    {
        self.form(r) == form.number()
    }

    // The line of the book that an edge stands on.
    pub fn line(&self, e: usize) -> usize
        ensures { result ≡ get_or self.now.edge_line e 0 }
    {
        let low = byte_in::<LINE_LOW, 512>(&self.bytes, e) as usize;
        let high = byte_in::<LINE_HIGH, 512>(&self.bytes, e) as usize;
        low + 256 * high
    }

    // The numbers of an edge.
    pub fn cell(&self, e: usize) -> Cell
        ensures { result ≡ cell_at self.now e }
    {
        Cell {
            rule: self.rule(e),
            state: self.state(e),
            key: self.key(e),
            kind: self.kind(e),
            next: self.next(e),
        }
    }

    // Bit i of the end states: state q of rule r is one, at i = 16 r + q.
    pub fn is_end(&self, i: usize) -> bool
        ensures { result ≡ bit_at self.now.ends i }
    {
        bits::get_bit(&self.bytes[END..FORM], i)
    }

    // The eight rules from r on have no form: one test for all of them, so that loops can pass over them.
    // Stays: a clause for eight rules that the table has: without it the function tests the place, and says of rules that no table has that they have
    // no form. The one loop that asks has no such rules.
    pub fn no_forms(&self, r: usize) -> bool
        requires { r + 8 ≤ 32 }
        ensures { result ≡ true → (k : ℕ) → k < 8 → get_or self.now.forms (r + k) 0 ≡ 0 }
    {
        bits::quiet(&self.bytes, FORM + r)
    }

    // The bytes of a key, which end with those of all keys. A key past the last has none.
    pub fn key_text(&self, k: usize) -> &[u8]
        ensures { result.now ≡ key_at self.now.key_bytes self.now.key_len k }
    {
        let bytes = &self.bytes;
        if 128 <= k {
            return &[];
        }
        let a = KEY_BYTES + 32 * k;
        let e = cmp::min(a + self.len(k) as usize, KEY_LEN);
        &bytes[a..e]
    }

    // One edge more.
    // Stays: room for it, since the memory is fixed, and `store::take_edge` tests the count; and a rule that the table has, by a clause, since the
    // definitions are over numbers: a type for those in range would be taken apart at each of their uses.
    pub fn with_edge(&mut self, form: Form, c: Cell, line: u16)
        requires { (self.old.edges < 512) × (c.rule < 32) }
        ensures { self.new ≡ with_edge self.old (form_number form) c line }
    {
        let at = self.edges();
        self.bytes[RULE + at] = c.rule;
        self.bytes[STATE + at] = c.state;
        self.bytes[KEY + at] = c.key;
        self.bytes[KIND + at] = c.kind;
        self.bytes[NEXT + at] = c.next;
        self.bytes[LINE_LOW + at] = (line % 256) as u8;
        self.bytes[LINE_HIGH + at] = (line / 256) as u8;
        self.bytes[FORM + c.rule as usize] = form.number();
        let n = at + 1;
        self.bytes[0] = (n % 256) as u8;
        self.bytes[1] = (n / 256) as u8;
    }

    // One key more.
    // Stays: room for it, since the memory is fixed: `store::take_edge` tests the count.
    pub fn with_key(&mut self, key: &[u8])
        requires { (self.old.keys < 128) × (length key.now ≤ 32) }
        ensures { self.new ≡ with_key self.old key.now }
    {
        let at = self.keys() as usize;
        let a = KEY_BYTES + 32 * at;
        write_key(&mut self.bytes, a, key);
        self.bytes[KEY_LEN + at] = key.len() as u8;
        self.bytes[2] = (at + 1) as u8;
    }

    // One end state more.
    // Stays: a rule and a state that the table has, by a clause, as in `with_edge`.
    pub fn with_end(&mut self, rule: u8, form: Form, state: u8)
        requires { (rule < 32) × (state < 16) }
        ensures { self.new ≡ with_end self.old rule (form_number form) state }
    {
        let r = rule as usize;
        bits::set_if(true, &mut self.bytes, 8 * END + (16 * r + state as usize));
        self.bytes[FORM + r] = form.number();
    }
}
