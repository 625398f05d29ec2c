// Bytes of a number that stand one after the other and lead to one mode, counted at once.
ghost use Rattle.std.specs.Prelude.{◌≡◌, ◌≢◌, ◌+◌, ◌-◌, ◌<◌, length, slice_index, MatchOption};
ghost use Rattle.std.specs.List.{fold};
ghost use Rattle.whole.specs.Count.{longer_up_to, bounded, counted_all};
ghost use Rattle.whole.specs.Run.{more_by, ZerosFrom};

use super::{Decimal, longer, with_sign};
use json_text::number::NumberMode;

// The place of the last byte that is no zero.
fn last_other(s: &[u8]) -> Option<usize>
    ensures { MatchOption result (ZerosFrom s.now 0) (λ i. (i < length s.now) × (slice_index s.now i ≢ 0x30) × ZerosFrom s.now (i + 1)) }
{
    s.iter().rposition(|b| *b != b'0')
}

// The count with k more; at the largest number the count stays.
fn more_by(n: u32, k: usize) -> u32
    ensures { result ≡ more_by n k }
{
    n.saturating_add(u32::try_from(k).unwrap_or(u32::MAX))
}

// Digits before the point, or after it but for their places.
fn digits_over(d: Decimal, s: &[u8]) -> Decimal
    ensures { result ≡ counted_all bounded NumberMode.Int d s.now }
{
    match last_other(s) {
        None => Decimal {
            zeros: more_by(d.zeros, s.len()),
            ..d
        },
        Some(last) => Decimal {
            zeros: more_by(0, s.len() - 1 - last),
            nonzero: true,
            ..d
        },
    }
}

// Digits after the point.
fn places_over(d: Decimal, s: &[u8]) -> Decimal
    ensures { result ≡ counted_all bounded NumberMode.Frac d s.now }
{
    let d = digits_over(d, s);
    Decimal {
        places: more_by(d.places, s.len()),
        ..d
    }
}

// The exponent e with more digits.
fn longer_by(e: u32, s: &[u8]) -> u32
    ensures { result ≡ fold (λ e b. longer_up_to e (b - 0x30)) e s.now }
{
    s.iter().fold(e, |e, b| longer(e, *b))
}

// Digits of the exponent.
fn exponent_over(d: Decimal, s: &[u8]) -> Decimal
    ensures { result ≡ counted_all bounded NumberMode.Exp d s.now }
{
    Decimal {
        exponent: longer_by(d.exponent, s),
        ..d
    }
}

// The sign of the exponent, which is one byte.
fn sign_over(d: Decimal, s: &[u8]) -> Decimal
    ensures { result ≡ counted_all bounded NumberMode.Sign d s.now }
{
    match s.last() {
        Some(b) => with_sign(d, *b),
        None => d,
    }
}

// The bytes, each of which leads to mode n. Ruled out: a run of zeros that drops those before it, and digits after the point that are no places.
pub fn over(n: NumberMode, d: Decimal, s: &[u8]) -> Decimal
    ensures { result ≡ counted_all bounded n d s.now }
{
    match n {
        NumberMode::Minus | NumberMode::Dot | NumberMode::E => d,
        NumberMode::Zero | NumberMode::Int => digits_over(d, s),
        NumberMode::Frac => places_over(d, s),
        NumberMode::Sign => sign_over(d, s),
        NumberMode::Exp => exponent_over(d, s),
    }
}
