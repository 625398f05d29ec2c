// The registers of the open character, its bits and the high surrogate before it, and those of the open number.
ghost use Rattle.std.specs.Prelude.{◌≡◌};
ghost use Rattle.progress.specs.Act.{number_in, number_before, number_to};
ghost use Rattle.progress.specs.Progress.{bits_in, high_in, char_in};

use json_text::lexer::Mode;
use whole::Decimal;

// The bits of the open character after byte b.
#[inline(always)]
pub fn bits_in(m: Mode, bits: u32, b: u8) -> u32
    ensures { result ≡ bits_in m bits b }
{
    match m {
        Mode::Key(s) | Mode::Text(s) => chars::string::bits_after(s, bits, b),
        _ => bits,
    }
}

// The high surrogate after byte b.
pub fn high_in(m: Mode, bits: u32, high: u32, b: u8) -> u32
    ensures { result ≡ high_in m bits high b }
{
    match m {
        Mode::Key(s) | Mode::Text(s) => chars::string::high_after(s, bits, high, b),
        _ => high,
    }
}

// The character of a key that byte b finishes.
// Stays: 0 in another mode, since the lexer's act tells whether a byte finishes a character of a key, and only then the number is used.
pub fn char_in(m: Mode, bits: u32, high: u32, b: u8) -> u32
    ensures { result ≡ char_in m bits high b }
{
    match m {
        Mode::Key(s) => chars::string::char_of(s, bits, high, b),
        _ => 0,
    }
}

// The number that a byte of a number goes on with: in another mode one begins, and is fresh.
fn number_in(m: Mode, d: Decimal) -> Decimal
    ensures { result ≡ number_in m d }
{
    match m {
        Mode::Number(_) => d,
        _ => whole::fresh(),
    }
}

// The number before a byte that leads from one mode to another.
pub fn number_before(from: Mode, m: Mode, d: Decimal) -> Decimal
    ensures { result ≡ number_before from m d }
{
    match m {
        Mode::Number(_) => number_in(from, d),
        _ => d,
    }
}

// The number after byte b, which leads to mode m.
pub fn number_to(m: Mode, d: Decimal, b: u8) -> Decimal
    ensures { result ≡ number_to m d b }
{
    match m {
        Mode::Number(n) => whole::counted(n, d, b),
        _ => d,
    }
}
