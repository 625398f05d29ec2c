// What a byte does, wherever it stands in a text.
use super::number::NumberMode;
use super::string::StringMode;
use super::word::Word;

// What is awaited between two tokens.
#[derive(Clone, Copy)]
pub enum Awaited {
    // a value
    Value,
    // what may stand after the opening byte of an array or object
    First,
    // a key, after a comma
    Key,
    // a colon
    Colon,
    // what may stand after a value
    After,
}

// Where the next byte stands: between tokens, in a key, in a string, in a number, in a word of which some letters are read.
#[derive(Clone, Copy)]
pub enum Mode {
    At(Awaited),
    Key(StringMode),
    Text(StringMode),
    Number(NumberMode),
    Word(Word, u8),
}

// The kind of the innermost open value.
#[derive(Clone, Copy)]
pub enum Top {
    Bare,
    Array,
    Object,
}

// What a byte does to the open values.
#[derive(Clone, Copy)]
pub enum Act {
    // no text goes on with the byte
    Fault,
    Pass,
    OpenArray,
    OpenObject,
    // closes the innermost open value
    Close,
    KeyStart,
    // finishes a character of a key
    KeyChar,
    KeyEnd,
    TextStart,
    TextChar,
    // finishes a string that is a value
    TextEnd,
    NumberStart,
    NumberByte,
    // finishes a word
    WordEnd(Word),
}

// What a byte does: whether it first ends a number, then its act, and where the next byte stands.
#[derive(Clone, Copy)]
pub struct Step {
    pub mode: Mode,
    pub ends: bool,
    pub act: Act,
}
