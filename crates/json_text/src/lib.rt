// JSON as bytes: RFC 8259 and RFC 3629, and a lexer that reads one byte at a time.
#![tactic(auto)]

pub mod class; // class.rt: the class of each byte
pub mod string; // string.rt: strings and keys, their escapes and UTF-8 sequences
pub mod number; // number.rt: numbers
pub mod word; // word.rt: true, false and null
pub mod lexer; // lexer.rt: what a byte does, wherever it stands in a text
