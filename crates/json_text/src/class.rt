// The class of each byte: REQUIREMENT.md, section 2.

#[derive(Clone, Copy)]
pub enum Class {
    // 00 to 1F, the breaks aside
    Control,
    // 09, 0A, 0D: blanks that no string holds
    Break,
    // 20
    Space,
    // 22
    Quote,
    // 5C
    Backslash,
    // [ ] { } , :
    Structure,
    // 0 to 9
    Digit,
    // any other byte from 21 to 7F
    Other,
    // 80 to BF: stands after the first byte of a UTF-8 sequence
    Tail,
    // the first byte of a UTF-8 sequence, a class for each row of RFC 3629, section 4: UTF8-2, C2 to DF
    LeadC2,
    // UTF8-3: E0; E1 to EC; ED; EE and EF
    LeadE0,
    LeadE1,
    LeadED,
    LeadEE,
    // UTF8-4: F0; F1 to F3; F4
    LeadF0,
    LeadF1,
    LeadF4,
    // C0, C1, F5 to FF
    Never,
}
