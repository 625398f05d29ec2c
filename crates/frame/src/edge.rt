// Edges of a table: how many count, the tests of one of them, and the states that some lead to.
ghost use Rattle.std.specs.Prelude.{Bool, ◌&&◌, get_or, ◌≡◌, ℕ, ◌+◌, ◌*◌, replicate};
ghost use Rattle.laws.specs.Bits.{set_all};
ghost use Rattle.table.specs.Kind.{form_number};
ghost use Rattle.frame.specs.Edges.{edge_count, has_form};
ghost use Rattle.frame.specs.Frame.{held_in};
ghost use Rattle.frame.specs.InTable.{leaves, leads_to, fitting_in, stepping_in, walking_in};

use crate::{Frame, States, mask};
use table::bits;
use table::flat::Table;
use table::kind::Form;

// How many edges of a table count: at most 512.
pub fn count(table: &Table) -> usize
    ensures { result ≡ edge_count table.now.edges }
{
    table.edges().min(512)
}

// The number of a rule's state.
fn state_number(rule: u8, state: u8) -> usize
    ensures { result ≡ 16 * rule + state }
{
    16 * usize::from(rule) + usize::from(state)
}

// The number of the state that edge e leaves.
#[tactic(auto, unfolding(crate::specs::Edges::state_number))]
fn state_of(table: &Table, e: usize) -> usize
    ensures { result ≡ leaves table.now e }
{
    state_number(table.rule(e), table.state(e))
}

// The number of the state that edge e leads to.
#[tactic(auto, unfolding(crate::specs::Edges::state_number))]
fn next_state(table: &Table, e: usize) -> usize
    ensures { result ≡ leads_to table.now e }
{
    state_number(table.rule(e), table.next(e))
}

// Rule r is of a form; one above 31 is of none.
// Stays: the test of 31. Without it the goal `returns` is not proved: that a table has 32 forms is an invariant of its bytes, which the clause of
// `Table::has_form` does not tell.
#[tactic(auto, unfolding(crate::specs::Edges::has_form))]
pub fn has_form(table: &Table, r: usize, form: Form) -> bool
    ensures { result ≡ has_form table.now.forms (form_number form) r }
{
    r < 32 && table.has_form(r, form)
}

// The frame has an edge of its object, or a state of its array.
fn holds(frame: &Frame, i: usize) -> bool
    ensures { result ≡ held_in frame.now i }
{
    bits::get_bit(&frame[32..], i)
}

// Edge e is one of the key, and the mask has its kind.
#[tactic(auto, unfolding(crate::specs::Edges::fitting))]
pub fn fitting(table: &Table, e: usize, key: u8, m: u64) -> bool
    ensures { result ≡ fitting_in table.now m key e }
{
    table.key(e) == key && mask::mask_has(m, table.kind(e))
}

// The rule of edge e is an arr rule, and its state is one of the frame's.
#[tactic(auto, unfolding(crate::specs::Edges::state_number))]
fn leaves_state<'a>(table: &'a Table, frame: &'a Frame, e: usize) -> bool
    ensures { result ≡ (has_form table.now.forms 2 (get_or table.now.edge_rule e 0) && held_in frame.now (leaves table.now e)) }
{
    has_form(table, usize::from(table.rule(e)), Form::Array) && holds(frame, state_of(table, e))
}

// The mask has the kind of edge e, its rule is an arr rule, and its state is one of the frame's. Most edges fail the first test; few codes have more
// than six bits, which is why that is tested last.
pub fn stepping<'a>(table: &'a Table, frame: &'a Frame, e: usize, m: u64) -> bool
    ensures { result ≡ stepping_in table.now m frame.now e }
{
    let kind = table.kind(e);
    mask::has_last_bits(m, kind) && leaves_state(table, frame, e) && kind < 64
}

// Edge e is one of the key, is among the frame's fitting edges, and its state is one of the states.
#[tactic(auto, unfolding(crate::specs::Edges::state_number, crate::specs::Edges::walking))]
pub fn walking<'a>(
    table: &'a Table,
    frame: &'a Frame,
    states: &'a States,
    e: usize,
    key: u8,
) -> bool
    ensures { result ≡ walking_in table.now frame.now states.now key e }
{
    table.key(e) == key && holds(frame, e) && bits::get_bit(states, state_of(table, e))
}

// The states that those edges lead to which are taken.
pub fn led_to<F: Fn(usize) -> bool>(table: &Table, taken: F) -> States
    requires { F.IsAlwaysCallable taken }
    ensures { (p : ℕ → Bool) → ((e : ℕ) (b : Bool) → F.post taken e b → b ≡ p e) → result ≡ set_all p (leads_to table.now) (edge_count table.now.edges) (replicate 64 0) }
{
    let mut states = [0; 64];
    for e in 0..count(table) {
        if taken(e) {
            bits::set_if(true, &mut states, next_state(table, e));
        }
    }
    states
}
