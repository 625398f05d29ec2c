// Opening: REQUIREMENT.md, section 5.
ghost use Rattle.std.specs.Prelude.{List, ◌≡◌, ℕ, ◌+◌, ◌*◌, ◌≤◌};
ghost use Rattle.laws.specs.Bits.{set_all};
ghost use Rattle.table.specs.Kind.{form_number};
ghost use Rattle.frame.specs.Edges.{has_form};
ghost use Rattle.frame.specs.Ops.{opened};

use crate::{FRAME, Frame, States, edge};
use table::flat::Table;
use table::kind::Form;

// Adds state 0 of those of eight rules that are of a form. State 0 of rule r is bit 0 of byte 2 r.
// Stays: a clause for eight rules that the states have, since a write that is total tests the place of each byte, and `add_starts` has no others.
fn add_eight(states: &mut States, table: &Table, form: Form, from: usize)
    requires { from + 8 ≤ 32 }
    ensures { (xs : List ℕ) → states.old ≡ set_all (has_form table.now.forms (form_number form)) (λ r. 16 * r) from xs → states.new ≡ set_all (has_form table.now.forms (form_number form)) (λ r. 16 * r) (from + 8) xs }
{
    for r in from..from + 8 {
        states[2 * r] |= u8::from(edge::has_form(table, r, form));
    }
}

// Adds state 0 of every rule of a form. Eight rules without lines are passed over at once.
// Stays: written in place, since an array that is given back costs 7 in 100 instructions on a stream of numbers.
pub fn add_starts(states: &mut States, table: &Table, form: Form)
    ensures { states.new ≡ set_all (has_form table.now.forms (form_number form)) (λ r. 16 * r) 32 states.old }
{
    for i in 0..4 {
        if !table.no_forms(8 * i) {
            add_eight(states, table, form, 8 * i);
        }
    }
}

// Writes all 96 bytes of a fresh frame.
#[tactic(auto, unfolding(crate::specs::Ops::opened, crate::specs::Ops::start_states))]
pub fn open_frame(frame: &mut Frame, form: Form, table: &Table)
    ensures { frame.new ≡ opened table.now.forms form }
{
    *frame = [0; FRAME];
    frame[0] = form.number();
    match form {
        Form::Object => frame[1] = 255,
        Form::Array => add_starts(frame.last_chunk_mut().unwrap(), table, form),
    }
}
