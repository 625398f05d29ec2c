// The verdict of a record: REQUIREMENT.md, section 6.
#![tactic(auto)]

ghost use Rattle.std.specs.Prelude.{◌≡◌};
ghost use Rattle.verdict.specs.Verdict.{shown};

// The word of a verdict.
#[derive(Clone, Copy, PartialEq, Eq)]
pub enum Word {
    Valid,
    Invalid,
    Refused,
}

#[derive(Clone, Copy, PartialEq, Eq)]
pub enum Verdict {
    Valid,
    Invalid,
    // 11: malformed, with the fault place
    Malformed(u32),
    // 12: too deep, with the place of the opening byte
    TooDeep(u32),
    // 13: too long
    TooLong,
    // 14: ended before a whole text, with the length
    Unfinished(u32),
    // 15: the head, content unread
    Head,
}

impl Verdict {
    pub fn word(self) -> Word
        ensures { result ≡ (shown self).word }
    {
        match self {
            Verdict::Valid => Word::Valid,
            Verdict::Invalid => Word::Invalid,
            _ => Word::Refused,
        }
    }

    // 0 unless refused
    // Stays: 0, since the line of a verdict and the C interface have 0 there.
    pub fn number(self) -> u8
        ensures { result ≡ (shown self).number }
    {
        match self {
            Verdict::Valid | Verdict::Invalid => 0,
            Verdict::Malformed(_) => 11,
            Verdict::TooDeep(_) => 12,
            Verdict::TooLong => 13,
            Verdict::Unfinished(_) => 14,
            Verdict::Head => 15,
        }
    }

    // 0 where a verdict has no place
    // Stays: 0, as in `number`.
    pub fn place(self) -> u32
        ensures { result ≡ (shown self).place }
    {
        match self {
            Verdict::Malformed(p) | Verdict::TooDeep(p) | Verdict::Unfinished(p) => p,
            Verdict::TooLong => 16777216,
            Verdict::Valid | Verdict::Invalid | Verdict::Head => 0,
        }
    }
}
