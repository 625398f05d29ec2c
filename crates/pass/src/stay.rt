// Bytes that leave the mode of a reader as it is, counted from the first on.
ghost use Rattle.std.specs.Prelude.{true, ◌≡◌, ◌≤◌, ◌<◌, ℕ, length, slice_index};
ghost use Rattle.pass.specs.Pass.{plain_class, StaysFor};

use chars::class::Classes;
use json_text::class::Class;
use json_text::lexer::Mode;
use json_text::number::NumberMode;
use json_text::string::StringMode;

// A byte of the class is a whole character of a string.
fn plain_class(k: Class) -> bool
    ensures { result ≡ plain_class k }
{
    matches!(
        k,
        Class::Space | Class::Structure | Class::Digit | Class::Other
    )
}

// How many bytes that pass a test stand first.
#[inline(always)]
fn run_len<F: Fn(u8) -> bool>(s: &[u8], test: F) -> usize
    requires { F.IsAlwaysCallable test }
    ensures bound { result ≤ length s.now }
    ensures passed { (j : ℕ) → j < result → (slice_index s.now j < 256) × F.post test (slice_index s.now j) true }
{
    s.iter().position(|b| !test(*b)).unwrap_or(s.len())
}

// How many whole characters of a string stand first.
pub fn plain_len(classes: &Classes, s: &[u8]) -> usize
    ensures { StaysFor (Mode.Text StringMode.Char) s.now result }
{
    run_len(s, |b| plain_class(classes.of(b)))
}

// How many bytes that leave a number's mode as it is stand first.
pub fn number_len(n: NumberMode, s: &[u8]) -> usize
    ensures { StaysFor (Mode.Number n) s.now result }
{
    match n {
        NumberMode::Int | NumberMode::Frac | NumberMode::Exp => run_len(s, lexer::number::is_digit),
        _ => 0,
    }
}

// How many bytes that leave the mode as it is stand first.
pub fn stay_len(classes: &Classes, m: Mode, s: &[u8]) -> usize
    ensures { StaysFor m s.now result }
{
    match m {
        Mode::At(_) => run_len(s, lexer::step::is_blank),
        Mode::Text(StringMode::Char) => plain_len(classes, s),
        Mode::Number(n) => number_len(n, s),
        _ => 0,
    }
}
