// The table of a book, one entry after the other.
#![tactic(auto)]

ghost use Rattle.std.specs.Prelude.{◌&&◌, ◌≡◌, ◌+◌, ◌*◌, ◌<◌, ◌≤◌, eqb, length, get_or};
ghost use Rattle.table.specs.Kind.{form_number};
ghost use Rattle.table.specs.Keys.{table_keys};
ghost use Rattle.book.specs.Holds.{key_number};
ghost use Rattle.line.specs.Line.{entry_in};
ghost use Rattle.store.specs.Proper.{Proper};
ghost use Rattle.store.specs.Store.{has_cell, is_new, form_changes, taken, fault_in, take_edge, take_end, take_entry};

use line::{Fault, Line};
use table::flat::{Cell, Table};
use table::kind::Form;

// ---- edges

// One of the edges has the numbers of the cell.
#[tactic(auto, unfolding(crate::specs::Store::has_cell))]
fn has_cell(table: &Table, c: Cell) -> bool
    ensures { result ≡ has_cell table.now c }
{
    (0..table.edges()).any(|e| {
        c.rule == table.rule(e)
            && c.state == table.state(e)
            && c.key == table.key(e)
            && c.kind == table.kind(e)
            && c.next == table.next(e)
    })
}

// ---- keys

// The number that a cell has for a key: how many keys there are, for a new one; 128 for none.
// Stays: a number, since it is the byte that the table holds of the key, and 128 is that byte for none.
fn key_number(table: &Table, key: &[u8]) -> u8
    ensures { result ≡ key_number (table_keys table.now) key.now }
{
    if key.is_empty() {
        return 128;
    }
    table.find(key).unwrap_or(table.keys())
}

// A key of n bytes with number k is new after m keys.
#[tactic(auto, unfolding(crate::specs::Store::is_new))]
fn is_new(n: usize, k: u8, m: u8) -> bool
    ensures { result ≡ is_new n k m }
{
    n != 0 && k == m
}

// ---- entries

// A rule with lines has another form.
#[tactic(auto, unfolding(crate::specs::Store::form_changes))]
fn form_changes(table: &Table, rule: usize, new: Form) -> bool
    ensures { result ≡ form_changes (get_or table.now.forms rule 0) (form_number new) }
{
    table.form(rule) != 0 && !table.has_form(rule, new)
}

// An end state; or the fault of it, and the table as it was.
fn take_end(table: &mut Table, rule: u8, form: Form, state: u8) -> Result<(), Fault>
    requires { (rule < 32) × (state < 16) }
    ensures { taken (fault_in result) table.new ≡ take_end table.old rule (form_number form) state }
{
    if table.is_end(16 * rule as usize + state as usize) {
        return Err(Fault::Repeated);
    }
    table.with_end(rule, form, state);
    Ok(())
}

// An edge whose key has the number in its cell; or the fault of it, and the table as it was.
fn take_edge(table: &mut Table, line: u16, form: Form, c: Cell, key: &[u8]) -> Result<(), Fault>
    requires { (c.rule < 32) × (length key.now ≤ 32) }
    ensures { taken (fault_in result) table.new ≡ take_edge line table.old (form_number form) c key.now }
{
    let edges = table.edges();
    let keys = table.keys();
    if has_cell(table, c) {
        return Err(Fault::Repeated);
    }
    if 512 <= edges {
        return Err(Fault::TooMany);
    }
    if is_new(key.len(), c.key, keys) {
        if 128 <= keys {
            return Err(Fault::TooMany);
        }
        table.with_key(key);
        table.with_edge(form, c, line);
        return Ok(());
    }
    table.with_edge(form, c, line);
    Ok(())
}

// The entry of a line; or the fault of it, and the table as it was.
// Stays: an entry within the limits of its fields by a clause, as in `Table::with_edge`.
pub fn take_entry(table: &mut Table, n: u16, l: &Line) -> Result<(), Fault>
    requires { Proper (entry_in l.now) }
    ensures { taken (fault_in result) table.new ≡ take_entry n table.old (entry_in l.now) }
{
    if form_changes(table, usize::from(l.rule), l.form) {
        return Err(Fault::FormChanged);
    }
    match l.edge {
        None => take_end(table, l.rule, l.form, l.state),
        Some(e) => {
            let c = Cell {
                rule: l.rule,
                state: l.state,
                key: key_number(table, e.key),
                kind: e.kind.code() as u8,
                next: e.next,
            };
            take_edge(table, n, l.form, c, e.key)
        }
    }
}
