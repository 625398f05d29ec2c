// The number of a corner, from the bytes that it is written in.
#![tactic(auto)]

ghost use Rattle.std.specs.Prelude.{◌≡◌, ◌≤◌};
ghost use Rattle.coordinate.specs.Exact.{longer, whole_of, coordinate_of};

// The value with one digit more: none where the byte is no digit, or the value leaves the range.
fn longer(value: u32, b: u8) -> Option<u32>
    requires { value ≤ 1000000 }
    ensures { result ≡ longer value b }
{
    if !b.is_ascii_digit() {
        return None;
    }
    let grown = value * 10 + (b - b'0') as u32;
    (grown <= 1000000).then_some(grown)
}

// The number that one or more digits are.
fn whole(digits: &[u8]) -> Option<u32>
    ensures { result ≡ whole_of digits.now }
{
    if digits.is_empty() {
        return None;
    }
    let mut value = 0;
    for b in digits {
        value = longer(value, *b)?;
    }
    Some(value)
}

// The number that the bytes are, whatever bytes they are; none where they are not in plain digits, or not in range.
pub fn read(bytes: &[u8]) -> Option<i32>
    ensures { result ≡ coordinate_of bytes.now }
{
    match bytes.strip_prefix(b"-") {
        Some(digits) => Some(-(whole(digits)? as i32)),
        None => Some(whole(bytes)? as i32),
    }
}
