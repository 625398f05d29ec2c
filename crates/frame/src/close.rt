// Closing: REQUIREMENT.md, section 5.
ghost use Rattle.std.specs.Prelude.{◌≡◌, ◌+◌, ◌*◌, ◌^◌, ◌<◌, ◌≤◌};
ghost use Rattle.table.specs.Kind.{form_number};
ghost use Rattle.frame.specs.Edges.{edges_in};
ghost use Rattle.frame.specs.Ops.{key_states, walked, start_states, has_end, rule_set, closed};
ghost use Rattle.frame.specs.InTable.{accepting_in};

use crate::{Frame, States, edge, form_of, open};
use table::bits;
use table::flat::Table;
use table::kind::Form;

// The states that the object's fitting edges of the key lead to.
#[tactic(auto, unfolding(crate::specs::Ops::key_states))]
fn key_states<'a>(frame: &'a Frame, from: &'a States, table: &'a Table, key: u8) -> States
    ensures { result ≡ key_states (edges_in table.now) frame.now from.now key }
{
    edge::led_to(table, |e| edge::walking(table, frame, from, e, key))
}

// Goes on from some states over the seen keys of byte 16 + i, ascending; a key that was not seen changes nothing.
// Stays: a clause for one of the 16 bytes of the keys seen, since a read that is total has to say what the keys of a byte past the frame are, and the
// loop of `walk` has no such byte.
fn walk_byte<'a>(states: &mut States, frame: &'a Frame, table: &'a Table, i: u8)
    requires { i < 16 }
    ensures { states.new ≡ walked (edges_in table.now) frame.now (8 * i) states.old 8 }
{
    if frame[16 + i as usize] == 0 {
        return;
    }
    for j in 0..8 {
        let key = 8 * i + j;
        if bits::get_bit(frame, 128 + key as usize) {
            *states = key_states(frame, states, table, key);
        }
    }
}

// The states after all seen keys, ascending, from state 0 of every obj rule.
fn walk<'a>(frame: &'a Frame, table: &'a Table) -> States
    ensures { result ≡ walked (edges_in table.now) frame.now 0 (start_states table.now.forms 1) 128 }
{
    let mut states = [0; 64];
    open::add_starts(&mut states, table, Form::Object);
    for i in 0..16 {
        walk_byte(&mut states, frame, table, i);
    }
    states
}

// Rule r has an end state among the states: its 16 states are two bytes.
// Stays: a clause for a rule that the states have, since a read that is total tests the place of both bytes again: `accepts` has tested the rule.
fn has_end<'a>(states: &'a States, table: &'a Table, r: usize) -> bool
    requires { r < 32 }
    ensures { result ≡ has_end table.now.ends states.now r }
{
    states[2 * r] & table.end(2 * r) != 0 || states[2 * r + 1] & table.end(2 * r + 1) != 0
}

// Rule r is of a form, and has an end state among the states.
#[tactic(auto, unfolding(crate::specs::Edges::has_form, crate::specs::Ops::accepting))]
fn accepts<'a>(states: &'a States, table: &'a Table, form: Form, r: usize) -> bool
    ensures { result ≡ accepting_in table.now (form_number form) states.now r }
{
    edge::has_form(table, r, form) && has_end(states, table, r)
}

// The set with those of four rules that are of a form and accept the states.
fn with_four<'a>(set: u32, states: &'a States, table: &'a Table, form: Form, from: usize) -> u32
    requires { (from + 4 ≤ 32) × (set ≡ rule_set (accepting_in table.now (form_number form) states.now) from) }
    ensures { result ≡ rule_set (accepting_in table.now (form_number form) states.now) (from + 4) }
{
    let mut all = set;
    for r in from..from + 4 {
        if accepts(states, table, form, r) {
            all += 1 << r;
        }
    }
    all
}

// The rules of a form that accept the states. Four rules without states are passed over at once.
fn rule_set<'a>(states: &'a States, table: &'a Table, form: Form) -> u32
    ensures { result ≡ rule_set (accepting_in table.now (form_number form) states.now) 32 }
{
    let mut set = 0;
    for i in 0..8 {
        if !bits::quiet(states, 8 * i) {
            set = with_four(set, states, table, form, 4 * i);
        }
    }
    set
}

// The rules that the value of a frame fits.
pub fn close_frame<'a>(frame: &'a Frame, table: &'a Table) -> u32
    ensures { result ≡ closed (edges_in table.now) table.now.forms table.now.ends frame.now }
{
    match form_of(frame) {
        Form::Object if 0 < frame[2] => 0,
        Form::Object => rule_set(&walk(frame, table), table, Form::Object),
        Form::Array => rule_set(frame.last_chunk().unwrap(), table, Form::Array),
    }
}
