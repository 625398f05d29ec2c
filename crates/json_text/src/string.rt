// Strings and keys: RFC 8259, section 7; RFC 3629, section 4; escaped surrogates in pairs only.

// What is awaited inside a string.
#[derive(Clone, Copy)]
pub enum StringMode {
    // a character, or the closing quotation mark
    Char,
    // the byte after a backslash
    Escape,
    // a hexadecimal digit of an escaped code unit: the first; the second, where the first is not D; the second after a D; the third; the fourth
    Unit1,
    Unit2,
    UnitD,
    Unit3,
    Unit4,
    // the third and fourth digit of a high surrogate, and then the escape of a low one: backslash, u, D, C to F, two more digits
    High3,
    High4,
    LowBackslash,
    LowU,
    Low1,
    Low2,
    Low3,
    Low4,
    // the second byte of a UTF-8 sequence, a mode for each row of RFC 3629, section 4: UTF8-2, after C2 to DF
    SecondC2,
    // UTF8-3: after E0; E1 to EC; ED; EE and EF
    SecondE0,
    SecondE1,
    SecondED,
    SecondEE,
    // UTF8-4: after F0; F1 to F3; F4
    SecondF0,
    SecondF1,
    SecondF4,
    // two bytes of UTF8-tail, and one
    Tail2,
    Tail1,
}

// What a byte does inside a string.
#[derive(Clone, Copy)]
pub enum StringMove {
    Fault,
    // the character is not finished
    Go(StringMode),
    // the byte is the last of a character
    Char,
    // the byte is the closing quotation mark
    Close,
}
