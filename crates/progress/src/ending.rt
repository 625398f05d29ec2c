// The verdict of a record without a fault that ends here.
ghost use Rattle.std.specs.Prelude.{◌≡◌};
ghost use Rattle.progress.specs.Progress.{whole_at, whole_number, whole_in, whole};

use super::Progress;
use json_text::lexer::{Awaited, Mode};
use json_text::number::NumberMode;
use verdict::Verdict;

// The verdict at a place where nothing is open.
fn whole_at(p: Awaited, pos: u32, root: bool) -> Verdict
    ensures { result ≡ whole_at p pos root }
{
    match p {
        Awaited::After if root => Verdict::Valid,
        Awaited::After => Verdict::Invalid,
        _ => Verdict::Unfinished(pos),
    }
}

// The verdict inside a number that stands in nothing.
fn whole_number(n: NumberMode, pos: u32) -> Verdict
    ensures { result ≡ whole_number n pos }
{
    if lexer::number::may_end(n) {
        Verdict::Invalid
    } else {
        Verdict::Unfinished(pos)
    }
}

// The verdict in a mode with nothing open.
fn whole_in(m: Mode, pos: u32, root: bool) -> Verdict
    ensures { result ≡ whole_in m pos root }
{
    match m {
        Mode::At(p) => whole_at(p, pos, root),
        Mode::Number(n) => whole_number(n, pos),
        _ => Verdict::Unfinished(pos),
    }
}

// The verdict of a record without a fault that ends here.
pub fn whole(x: Progress, root: bool) -> Verdict
    ensures { result ≡ whole x root }
{
    if x.level == 0 {
        whole_in(x.mode, x.pos, root)
    } else {
        Verdict::Unfinished(x.pos)
    }
}
