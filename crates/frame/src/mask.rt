// The kinds that a finished value fits, as one number: bit c is set where the value fits the kind with code c.
ghost use Rattle.std.specs.Prelude.{◌≡◌, ℕ, ◌≤◌};
ghost use Rattle.frame.specs.Edges.{fits_code};
ghost use Rattle.frame.specs.Mask.{mask_has, has_last_bits, bit_if_fits, scalar_mask};

use table::kind::{Finished, Scalar, ValueKind};

// The bit of a plain kind's code, where the scalar fits the kind; else 0.
fn bit_if_fits(k: Scalar, s: Scalar) -> u64
    ensures { (result ≡ bit_if_fits k s) × (result ≤ 32) }
{
    if ValueKind::Plain(k).fits(Finished::Scalar(s)) {
        return 1 << ValueKind::Plain(k).code();
    }
    0
}

// The mask of a scalar: the bits of the plain kinds that it fits.
fn scalar_mask(s: Scalar) -> u64
    ensures { result ≡ scalar_mask s }
{
    bit_if_fits(Scalar::Null, s)
        + bit_if_fits(Scalar::True, s)
        + bit_if_fits(Scalar::False, s)
        + bit_if_fits(Scalar::Str, s)
        + bit_if_fits(Scalar::Num, s)
        + bit_if_fits(Scalar::Int, s)
}

// The mask of a finished value: it has a code exactly where the value fits the kind with that code. The codes of rules follow each other from
// that of rule 0 on, as the bits of a set of rules do from bit 0 on.
pub fn mask_of(v: Finished) -> u64
    ensures { (code : ℕ) → mask_has result code ≡ fits_code v code }
{
    match v {
        Finished::Scalar(s) => scalar_mask(s),
        Finished::Rules(rules) => u64::from(rules) << ValueKind::Rule(0).code(),
    }
}

// The mask has the last six bits of a code as its bit.
#[tactic(auto, unfolding(crate::specs::Mask::has_last_bits))]
pub fn has_last_bits(mask: u64, code: u8) -> bool
    ensures { result ≡ has_last_bits mask code }
{
    (mask >> (code % 64)) % 2 == 1
}

// The mask has a code: it has its last six bits, and the code has no others.
pub fn mask_has(mask: u64, code: u8) -> bool
    ensures { result ≡ mask_has mask code }
{
    has_last_bits(mask, code) && code < 64
}
