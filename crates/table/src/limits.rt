// The limits of a table's numbers: docs/LIMITS.md.
ghost use Rattle.std.specs.Prelude.{◌≡◌};
ghost use Rattle.table.specs.Limits.{within_limits};

use crate::flat::Table;

// How many edges and keys a table has at most.
const MOST_EDGES: usize = 512;

const MOST_KEYS: u8 = 128;

// The counts of edges and keys are within their limits.
#[tactic(auto, unfolding(crate::specs::Limits::within_limits))]
pub fn fit_limits(t: &Table) -> bool
    ensures { result ≡ within_limits t.now }
{
    t.edges() <= MOST_EDGES && t.keys() <= MOST_KEYS
}
