// A finished value: REQUIREMENT.md, section 5.
ghost use Rattle.std.specs.Prelude.{◌≡◌, ◌+◌};
ghost use Rattle.laws.specs.Bits.{set_all};
ghost use Rattle.frame.specs.Edges.{edges_in, edge_count};
ghost use Rattle.frame.specs.Ops.{valued};
ghost use Rattle.frame.specs.InTable.{fitting_in};

use crate::{Frame, edge, form_of, mask};
use table::bits;
use table::flat::Table;
use table::kind::{Finished, Form};

// Adds the edges of the key whose kinds the mask has.
fn add_edges(frame: &mut Frame, table: &Table, key: u8, m: u64)
    ensures { frame.new ≡ set_all (fitting_in table.now m key) (λ e. 256 + e) (edge_count table.now.edges) frame.old }
{
    for e in 0..edge::count(table) {
        bits::set_if(edge::fitting(table, e, key, m), frame, 256 + e);
    }
}

// A finished value in the frame of the open value that it stands in.
pub fn value_frame(frame: &mut Frame, table: &Table, v: Finished)
    ensures { frame.new ≡ valued (edges_in table.now) table.now.edge_kind table.now.forms v frame.old }
{
    let m = mask::mask_of(v);
    match form_of(frame) {
        Form::Object => {
            let key = frame[1];
            if key < 128 {
                add_edges(frame, table, key, m);
            }
        }
        Form::Array => {
            let states = edge::led_to(table, |e| edge::stepping(table, frame, e, m));
            frame[32..].copy_from_slice(&states);
        }
    }
}
