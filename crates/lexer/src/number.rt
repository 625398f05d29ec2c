// Numbers: what a byte does after each part of one.
ghost use Rattle.std.specs.Prelude.{◌≡◌};
ghost use Rattle.json_text.specs.Numbers.{is_digit, is_digit_1_9};
ghost use Rattle.json_text.specs.Lexer.{or_exp, after_minus, after_zero, after_int, after_frac, after_e, after_exp, digit_only, number_move, may_end};

use json_text::number::{NumberMode, NumberMove};

// A digit.
pub fn is_digit(b: u8) -> bool
    ensures { result ≡ is_digit b }
{
    b.is_ascii_digit()
}

// A digit other than 0.
pub fn is_digit_1_9(b: u8) -> bool
    ensures { result ≡ is_digit_1_9 b }
{
    matches!(b, b'1'..=b'9')
}

// After digits that an exponent may follow.
fn or_exp(b: u8) -> NumberMove
    ensures { result ≡ or_exp b }
{
    match b {
        b'e' | b'E' => NumberMove::Go(NumberMode::E),
        _ => NumberMove::End,
    }
}

// After the minus sign.
fn after_minus(b: u8) -> NumberMove
    ensures { result ≡ after_minus b }
{
    match b {
        b'1'..=b'9' => NumberMove::Go(NumberMode::Int),
        b'0' => NumberMove::Go(NumberMode::Zero),
        _ => NumberMove::Fault,
    }
}

// After a leading 0.
fn after_zero(b: u8) -> NumberMove
    ensures { result ≡ after_zero b }
{
    match b {
        b'.' => NumberMove::Go(NumberMode::Dot),
        _ => or_exp(b),
    }
}

// After a digit before the point, the leading 0 aside.
fn after_int(b: u8) -> NumberMove
    ensures { result ≡ after_int b }
{
    match b {
        b'0'..=b'9' => NumberMove::Go(NumberMode::Int),
        _ => after_zero(b),
    }
}

// After a digit behind the point.
fn after_frac(b: u8) -> NumberMove
    ensures { result ≡ after_frac b }
{
    match b {
        b'0'..=b'9' => NumberMove::Go(NumberMode::Frac),
        _ => or_exp(b),
    }
}

// After e or E.
fn after_e(b: u8) -> NumberMove
    ensures { result ≡ after_e b }
{
    match b {
        b'0'..=b'9' => NumberMove::Go(NumberMode::Exp),
        b'+' | b'-' => NumberMove::Go(NumberMode::Sign),
        _ => NumberMove::Fault,
    }
}

// After a digit of the exponent.
fn after_exp(b: u8) -> NumberMove
    ensures { result ≡ after_exp b }
{
    match b {
        b'0'..=b'9' => NumberMove::Go(NumberMode::Exp),
        _ => NumberMove::End,
    }
}

// A digit must follow.
fn digit_only(b: u8, n: NumberMode) -> NumberMove
    ensures { result ≡ digit_only b n }
{
    match b {
        b'0'..=b'9' => NumberMove::Go(n),
        _ => NumberMove::Fault,
    }
}

// What byte b does after part n of a number.
pub fn number_move(n: NumberMode, b: u8) -> NumberMove
    ensures { result ≡ number_move n b }
{
    match n {
        NumberMode::Minus => after_minus(b),
        NumberMode::Zero => after_zero(b),
        NumberMode::Int => after_int(b),
        NumberMode::Dot => digit_only(b, NumberMode::Frac),
        NumberMode::Frac => after_frac(b),
        NumberMode::E => after_e(b),
        NumberMode::Sign => digit_only(b, NumberMode::Exp),
        NumberMode::Exp => after_exp(b),
    }
}

// A number may end after part n.
pub fn may_end(n: NumberMode) -> bool
    ensures { result ≡ may_end n }
{
    matches!(
        n,
        NumberMode::Zero | NumberMode::Int | NumberMode::Frac | NumberMode::Exp
    )
}
