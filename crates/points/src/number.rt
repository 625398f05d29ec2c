// A whole number, as it is written.
ghost use Rattle.std.specs.Prelude.{◌≡◌, None};
ghost use Rattle.std.specs.List.{list_all};
ghost use Rattle.std.specs.Char.{is_ascii_digit};
ghost use Rattle.coordinate.specs.Exact.{coordinate_of};
ghost use Rattle.points.specs.Points.{has_some_digits, number_of};

// Stands for every number beyond the range, with its sign.
const BEYOND: i32 = 2_000_000;

// Stays: within `has_some_digits` no search proves the goal `c.all.result ≡ list_all is_ascii_digit s`, on either side of the `&&`.
fn all_digits(s: &[u8]) -> bool
    ensures { result ≡ list_all is_ascii_digit s.now }
{
    s.iter().all(|b| b.is_ascii_digit())
}

// One or more digits, and nothing else.
fn has_some_digits(s: &[u8]) -> bool
    ensures { result ≡ has_some_digits s.now }
{
    !s.is_empty() && all_digits(s)
}

// The number where it is not in range.
fn beyond(w: &[u8]) -> Option<i32>
    requires { coordinate_of w.now ≡ None }
    ensures { result ≡ number_of w.now }
{
    match w.strip_prefix(b"-") {
        Some(digits) => has_some_digits(digits).then_some(-BEYOND),
        None => has_some_digits(w).then_some(BEYOND),
    }
}

// The number that the bytes are, or none. One beyond the range is 2,000,000 with its sign.
pub fn number_in(w: &[u8]) -> Option<i32>
    ensures { result ≡ number_of w.now }
{
    coordinate::read(w).or_else(|| beyond(w))
}
