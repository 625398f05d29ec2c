// The words true, false and null, matched one byte at a time.

#[derive(Clone, Copy)]
pub enum Word {
    Null,
    True,
    False,
}

// What a byte does inside a word.
#[derive(Clone, Copy)]
pub enum WordMove {
    Fault,
    // letters are left
    Go,
    // the byte is the last letter
    End,
}
