// Strings and keys: what a byte does, and the number of the character that it finishes.
ghost use Rattle.std.specs.Prelude.{◌≡◌};
ghost use Rattle.json_text.specs.Lexer.{char_start, unescape, escape_move, hex_of, any_hex, unit1, unit_d, low1, low2, only, ranged, string_move, lead_bits, tail_bits, hex_bits, pair_of, bits_after, high_after, char_of};
ghost use Rattle.chars.specs.Table.{class_at};
ghost use Rattle.chars.specs.Given.{move_by};

use super::class::{Classes, class_in};
use json_text::class::Class;
use json_text::string::{StringMode, StringMove};

// A byte of the given class where a character or the closing quotation mark is awaited.
pub fn char_start(k: Class) -> StringMove
    ensures { result ≡ char_start k }
{
    match k {
        Class::Space | Class::Structure | Class::Digit | Class::Other => StringMove::Char,
        Class::Quote => StringMove::Close,
        Class::Backslash => StringMove::Go(StringMode::Escape),
        // UTF8-2, by its first byte: C2-DF
        Class::LeadC2 => StringMove::Go(StringMode::SecondC2),
        // UTF8-3: E0; E1-EC; ED; EE-EF
        Class::LeadE0 => StringMove::Go(StringMode::SecondE0),
        Class::LeadE1 => StringMove::Go(StringMode::SecondE1),
        Class::LeadED => StringMove::Go(StringMode::SecondED),
        Class::LeadEE => StringMove::Go(StringMode::SecondEE),
        // UTF8-4: F0; F1-F3; F4
        Class::LeadF0 => StringMove::Go(StringMode::SecondF0),
        Class::LeadF1 => StringMove::Go(StringMode::SecondF1),
        Class::LeadF4 => StringMove::Go(StringMode::SecondF4),
        Class::Control | Class::Break | Class::Tail | Class::Never => StringMove::Fault,
    }
}

// The character that a byte after a backslash stands for.
pub fn unescape(b: u8) -> Option<u8>
    ensures { result ≡ unescape b }
{
    match b {
        b'"' => Some(b'"'),
        b'\\' => Some(b'\\'),
        b'/' => Some(b'/'),
        b'b' => Some(0x08),
        b'f' => Some(0x0C),
        b'n' => Some(b'\n'),
        b'r' => Some(b'\r'),
        b't' => Some(b'\t'),
        _ => None,
    }
}

// The byte after a backslash.
pub fn escape_move(b: u8) -> StringMove
    ensures { result ≡ escape_move b }
{
    if b == b'u' {
        return StringMove::Go(StringMode::Unit1);
    }
    match unescape(b) {
        Some(_) => StringMove::Char,
        None => StringMove::Fault,
    }
}

// The value of a hexadecimal digit.
pub fn hex_of(b: u8) -> Option<u8>
    ensures { result ≡ hex_of b }
{
    match b {
        b'0'..=b'9' => Some(b - b'0'),
        b'A'..=b'F' => Some(b - b'A' + 10),
        b'a'..=b'f' => Some(b - b'a' + 10),
        _ => None,
    }
}

// Any hexadecimal digit makes the move.
fn any_hex(h: Option<u8>, m: StringMove) -> StringMove
    ensures { result ≡ any_hex h m }
{
    match h {
        Some(_) => m,
        None => StringMove::Fault,
    }
}

// The first digit of a code unit.
fn unit1(h: Option<u8>) -> StringMove
    ensures { result ≡ unit1 h }
{
    match h {
        Some(0xD) => StringMove::Go(StringMode::UnitD),
        _ => any_hex(h, StringMove::Go(StringMode::Unit2)),
    }
}

// The second digit after a D: no surrogate, or a high one.
fn unit_d(h: Option<u8>) -> StringMove
    ensures { result ≡ unit_d h }
{
    match h {
        Some(0x0..=0x7) => StringMove::Go(StringMode::Unit3),
        Some(0x8..=0xB) => StringMove::Go(StringMode::High3),
        _ => StringMove::Fault,
    }
}

// The first digit of a low surrogate.
fn low1(h: Option<u8>) -> StringMove
    ensures { result ≡ low1 h }
{
    match h {
        Some(0xD) => StringMove::Go(StringMode::Low2),
        _ => StringMove::Fault,
    }
}

// The second digit of a low surrogate.
fn low2(h: Option<u8>) -> StringMove
    ensures { result ≡ low2 h }
{
    match h {
        Some(0xC..) => StringMove::Go(StringMode::Low3),
        _ => StringMove::Fault,
    }
}

// Only the byte x makes the move.
fn only(x: u8, b: u8, m: StringMove) -> StringMove
    ensures { result ≡ only x b m }
{
    if b == x { m } else { StringMove::Fault }
}

// A byte from lo to hi makes the move.
fn ranged(lo: u8, hi: u8, b: u8, m: StringMove) -> StringMove
    ensures { result ≡ ranged lo hi b m }
{
    if (lo..=hi).contains(&b) {
        m
    } else {
        StringMove::Fault
    }
}

// What byte b does inside a string, with its class from a lent table. The second byte of a UTF-8 sequence is found row by row, as RFC 3629,
// section 4, lists them. Ruled out: A0 after ED, which begins a surrogate, and 9F after E0, which begins a sequence that is longer than needed.
pub fn string_move_in(table: &[Class; 256], s: StringMode, b: u8) -> StringMove
    ensures { result ≡ move_by (class_at table.now b) s b }
{
    match s {
        StringMode::Char => char_start(class_in(table, b)),
        StringMode::Escape => escape_move(b),
        StringMode::Unit1 => unit1(hex_of(b)),
        StringMode::Unit2 => any_hex(hex_of(b), StringMove::Go(StringMode::Unit3)),
        StringMode::UnitD => unit_d(hex_of(b)),
        StringMode::Unit3 => any_hex(hex_of(b), StringMove::Go(StringMode::Unit4)),
        StringMode::Unit4 => any_hex(hex_of(b), StringMove::Char),
        StringMode::High3 => any_hex(hex_of(b), StringMove::Go(StringMode::High4)),
        StringMode::High4 => any_hex(hex_of(b), StringMove::Go(StringMode::LowBackslash)),
        StringMode::LowBackslash => only(0x5C, b, StringMove::Go(StringMode::LowU)),
        StringMode::LowU => only(0x75, b, StringMove::Go(StringMode::Low1)),
        StringMode::Low1 => low1(hex_of(b)),
        StringMode::Low2 => low2(hex_of(b)),
        StringMode::Low3 => any_hex(hex_of(b), StringMove::Go(StringMode::Low4)),
        StringMode::Low4 => any_hex(hex_of(b), StringMove::Char),
        // UTF8-2 = %xC2-DF UTF8-tail
        StringMode::SecondC2 => ranged(0x80, 0xBF, b, StringMove::Char),
        // UTF8-3 = %xE0 %xA0-BF UTF8-tail / %xE1-EC 2( UTF8-tail ) /
        //          %xED %x80-9F UTF8-tail / %xEE-EF 2( UTF8-tail )
        StringMode::SecondE0 => ranged(0xA0, 0xBF, b, StringMove::Go(StringMode::Tail1)),
        StringMode::SecondE1 => ranged(0x80, 0xBF, b, StringMove::Go(StringMode::Tail1)),
        StringMode::SecondED => ranged(0x80, 0x9F, b, StringMove::Go(StringMode::Tail1)),
        StringMode::SecondEE => ranged(0x80, 0xBF, b, StringMove::Go(StringMode::Tail1)),
        // UTF8-4 = %xF0 %x90-BF 2( UTF8-tail ) / %xF1-F3 3( UTF8-tail ) /
        //          %xF4 %x80-8F 2( UTF8-tail )
        StringMode::SecondF0 => ranged(0x90, 0xBF, b, StringMove::Go(StringMode::Tail2)),
        StringMode::SecondF1 => ranged(0x80, 0xBF, b, StringMove::Go(StringMode::Tail2)),
        StringMode::SecondF4 => ranged(0x80, 0x8F, b, StringMove::Go(StringMode::Tail2)),
        // UTF8-tail = %x80-BF
        StringMode::Tail2 => ranged(0x80, 0xBF, b, StringMove::Go(StringMode::Tail1)),
        StringMode::Tail1 => ranged(0x80, 0xBF, b, StringMove::Char),
    }
}

// What byte b does inside a string. Ruled out: a control character that is let through, and C1 as the first byte of a UTF-8 sequence.
pub fn string_move(classes: &Classes, s: StringMode, b: u8) -> StringMove
    ensures { result ≡ string_move s b }
{
    string_move_in(classes.table(), s, b)
}

// The bits of the first byte of a UTF-8 sequence.
fn lead_bits(b: u8) -> u8
    ensures { result ≡ lead_bits b }
{
    match b {
        0x00..=0xBF => 0,
        0xC0..=0xDF => b - 0xC0,
        0xE0..=0xEF => b - 0xE0,
        0xF0.. => b - 0xF0,
    }
}

// Six more bits, of a byte after the first.
fn tail_bits(bits: u32, b: u8) -> u32
    ensures { result ≡ tail_bits bits b }
{
    bits % 0x8000 * 64 + u32::from(b) % 64
}

// Four more bits, of a hexadecimal digit; another byte, which is a fault, counts as 0.
fn hex_bits(bits: u32, h: Option<u8>) -> u32
    ensures { result ≡ hex_bits bits h }
{
    bits % 0x1000 * 16 + u32::from(h.unwrap_or(0))
}

// The character of a high and a low surrogate.
fn pair_of(high: u32, low: u32) -> u32
    ensures { result ≡ pair_of high low }
{
    0x10000 + high % 0x400 * 0x400 + low % 0x400
}

// The bits of a character after byte b.
pub fn bits_after(s: StringMode, bits: u32, b: u8) -> u32
    ensures { result ≡ bits_after s bits b }
{
    match s {
        StringMode::Char => u32::from(lead_bits(b)),
        StringMode::Escape | StringMode::LowBackslash | StringMode::LowU => bits,
        // the first digit; another byte, which is a fault, counts as 16
        StringMode::Unit1 | StringMode::Low1 => u32::from(hex_of(b).unwrap_or(16)),
        StringMode::Unit2
        | StringMode::UnitD
        | StringMode::Unit3
        | StringMode::Unit4
        | StringMode::High3
        | StringMode::High4
        | StringMode::Low2
        | StringMode::Low3
        | StringMode::Low4 => hex_bits(bits, hex_of(b)),
        _ => tail_bits(bits, b),
    }
}

// The high surrogate after byte b.
// Stays: bits and high surrogate apart, since `bits_after` takes and gives the bits alone, and one byte of an escape sets the other.
pub fn high_after(s: StringMode, bits: u32, high: u32, b: u8) -> u32
    ensures { result ≡ high_after s bits high b }
{
    match s {
        StringMode::High4 => hex_bits(bits, hex_of(b)),
        _ => high,
    }
}

// The character that byte b finishes. Where it finishes none, the number says nothing.
// Stays: a number, since `string_move` tells whether a byte finishes a character: an Option would tell it a second time.
pub fn char_of(s: StringMode, bits: u32, high: u32, b: u8) -> u32
    ensures { result ≡ char_of s bits high b }
{
    match s {
        StringMode::Char => u32::from(b),
        StringMode::Escape => u32::from(unescape(b).unwrap_or(0)),
        StringMode::Unit4 => hex_bits(bits, hex_of(b)),
        StringMode::Low4 => pair_of(high, hex_bits(bits, hex_of(b))),
        StringMode::SecondC2 | StringMode::Tail1 => tail_bits(bits, b),
        _ => 0,
    }
}
