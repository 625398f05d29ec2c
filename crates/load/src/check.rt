// The checks after all lines: refusals 8 and 9.
ghost use Rattle.std.specs.Prelude.{◌≡◌, ◌≤◌, ◌<◌, get_or};
ghost use Rattle.load.specs.Step.{answered};
ghost use Rattle.load.specs.Check.{dangles_kind, clash_at, clashes_at, late_at, dangling, clashing, check_table};

use crate::Refusal;
use table::flat::Table;
use table::kind::{Form, ValueKind};

// A kind refers to a rule without lines. A rule that is past the forms has none.
#[tactic(auto, unfolding(crate::specs::Check::dangles_kind))]
fn dangles(table: &Table, kind: ValueKind) -> bool
    ensures { result ≡ dangles_kind table.now.forms kind }
{
    match kind {
        ValueKind::Plain(_) => false,
        ValueKind::Rule(r) => table.form(usize::from(r)) == 0,
    }
}

// The first edge that refers to a rule without lines.
#[tactic(auto, unfolding(crate::specs::Check::dangles_at, crate::specs::Check::dangling))]
fn dangling(table: &Table) -> Option<usize>
    ensures { result ≡ dangling table.now }
{
    (0..table.edges()).find(|e| dangles(table, ValueKind::from(table.kind(*e))))
}

// Edge a leads to edge b, and the keys do not rise.
#[tactic(auto, unfolding(crate::specs::Check::clash_at, crate::specs::Check::clash_codes))]
fn clash_at(table: &Table, a: usize, b: usize) -> bool
    ensures { result ≡ clash_at table.now a b }
{
    let first = table.cell(a);
    let second = table.cell(b);
    first.rule == second.rule
        && table.has_form(usize::from(first.rule), Form::Object)
        && first.next == second.state
        && first.key >= second.key
}

// Edges a and b clash, the one way or the other.
#[tactic(auto, unfolding(crate::specs::Check::clashes_at))]
fn clashes_at(table: &Table, b: usize, a: usize) -> bool
    ensures { result ≡ clashes_at table.now b a }
{
    clash_at(table, a, b) || clash_at(table, b, a)
}

// Edge b clashes with an edge before it, or with itself. Only an edge of an obj rule clashes with any.
fn late_at(table: &Table, b: usize) -> bool
    ensures { result ≡ late_at table.now b }
{
    if !table.has_form(usize::from(table.rule(b)), Form::Object) {
        return false;
    }
    (0..b).any(|a| clashes_at(table, b, a)) | clashes_at(table, b, b)
}

// The first edge that clashes with one up to it.
#[tactic(auto, unfolding(crate::specs::Check::clashing))]
fn clashing(table: &Table) -> Option<usize>
    ensures { result ≡ clashing table.now }
{
    (0..table.edges()).find(|b| late_at(table, *b))
}

// The table, or refusals 8 and 9.
pub fn check_table(table: &Table) -> Result<(), Refusal>
    ensures { answered result table.now ≡ check_table table.now }
{
    if let Some(e) = dangling(table) {
        let line = table.line(e);
        return Err(Refusal::NoRule(line));
    }
    if table.form(0) == 0 {
        return Err(Refusal::NoRoot);
    }
    if let Some(e) = clashing(table) {
        let later = table.line(e);
        return Err(Refusal::NotAscending(later));
    }
    Ok(())
}
