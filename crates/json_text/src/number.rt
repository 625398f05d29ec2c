// Numbers: RFC 8259, section 6.

// After which part of a number the next byte stands.
#[derive(Clone, Copy)]
pub enum NumberMode {
    Minus,
    Zero,
    Int,
    Dot,
    Frac,
    E,
    Sign,
    Exp,
}

// What a byte does after a part of a number.
#[derive(Clone, Copy)]
pub enum NumberMove {
    Fault,
    Go(NumberMode),
    // the number ended before this byte
    End,
}
