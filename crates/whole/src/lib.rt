// Whether the value of a number is whole, found while its bytes pass, in constant memory.
#![tactic(auto, unfolding(laws::specs::Count::bump, crate::specs::Count::enough, crate::specs::Count::is_whole, crate::specs::Count::longer_up_to, crate::specs::Count::with_digit,),)]

ghost use Rattle.std.specs.Prelude.{◌≡◌, ◌-◌};
ghost use Rattle.whole.specs.Fresh.{fresh};
ghost use Rattle.laws.specs.Count.{bump};
ghost use Rattle.whole.specs.Count.{longer_up_to, bounded, with_digit, with_place, with_exponent, counted, enough, is_whole};

use json_text::number::NumberMode;

pub mod run; // run.rt: bytes that stand one after the other, counted at once

// What is known of the open number.
#[derive(Clone, Copy, Default)]
pub struct Decimal {
    // the zeros at the end of the digits so far, those before the point and those after it
    pub zeros: u32,
    // the digits after the point
    pub places: u32,
    // the size of the exponent; one above 16,777,216 says only that the exponent is as large or larger
    pub exponent: u32,
    pub negative: bool,
    // some digit is not 0
    pub nonzero: bool,
}

// Nothing is read of a number.
pub fn fresh() -> Decimal
    ensures { result ≡ fresh }
{
    Decimal::default()
}

// The count with one more; at the largest number the count stays.
pub fn bump(n: u32) -> u32
    ensures { result ≡ bump n }
{
    n.saturating_add(1)
}

// The exponent with one digit more, which byte b shows.
fn longer(e: u32, b: u8) -> u32
    ensures { result ≡ longer_up_to e (b - 0x30) }
{
    if e <= 16777216 {
        10 * e + u32::from(b.saturating_sub(b'0'))
    } else {
        e
    }
}

// A digit before or after the point.
fn with_digit(d: Decimal, b: u8) -> Decimal
    ensures { result ≡ with_digit bounded d b }
{
    if b == b'0' {
        Decimal {
            zeros: bump(d.zeros),
            ..d
        }
    } else {
        Decimal {
            zeros: 0,
            nonzero: true,
            ..d
        }
    }
}

// The digit stands after the point.
fn with_place(d: Decimal) -> Decimal
    ensures { result ≡ with_place bounded d }
{
    Decimal {
        places: bump(d.places),
        ..d
    }
}

// A digit of the exponent.
fn with_exponent(d: Decimal, b: u8) -> Decimal
    ensures { result ≡ with_exponent bounded d b }
{
    Decimal {
        exponent: longer(d.exponent, b),
        ..d
    }
}

// The sign of the exponent.
fn with_sign(d: Decimal, b: u8) -> Decimal
    ensures { result ≡ counted bounded NumberMode.Sign d b }
{
    Decimal {
        negative: b == b'-',
        ..d
    }
}

// Byte b leads to a mode of the number. Ruled out: zeros at the end, or digits after the point, of which only the last is counted.
pub fn counted(n: NumberMode, d: Decimal, b: u8) -> Decimal
    ensures { result ≡ counted bounded n d b }
{
    match n {
        NumberMode::Minus | NumberMode::Dot | NumberMode::E => d,
        NumberMode::Zero | NumberMode::Int => with_digit(d, b),
        NumberMode::Frac => with_place(with_digit(d, b)),
        NumberMode::Sign => with_sign(d, b),
        NumberMode::Exp => with_exponent(d, b),
    }
}

// The digits after the point are at most the zeros at the end and the exponent together.
fn enough(negative: bool, places: u32, zeros: u32, exponent: u32) -> bool
    ensures { result ≡ enough negative places zeros exponent }
{
    let (places, zeros, exponent) = (u64::from(places), u64::from(zeros), u64::from(exponent));
    if negative {
        places + exponent <= zeros
    } else {
        places <= zeros + exponent
    }
}

// The value is whole. Ruled out: a zero that is refused for an exponent below 0, and an exponent whose sign is ignored.
pub fn is_whole(d: Decimal) -> bool
    ensures { result ≡ is_whole d }
{
    !d.nonzero || enough(d.negative, d.places, d.zeros, d.exponent)
}
