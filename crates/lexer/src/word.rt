// The words true, false and null: constant byte strings, matched one byte at a time.
ghost use Rattle.std.specs.Prelude.{◌≡◌};
ghost use Rattle.json_text.specs.Lexer.{letter_move, word_move};

use json_text::word::{Word, WordMove};

// Byte b as letter i of a byte string.
fn letter_move(s: &[u8], i: u8, b: u8) -> WordMove
    ensures { result ≡ letter_move s.now i b }
{
    let at = usize::from(i);
    match s.get(at) {
        Some(letter) if *letter == b => {
            if at + 1 < s.len() {
                WordMove::Go
            } else {
                WordMove::End
            }
        }
        _ => WordMove::Fault,
    }
}

// What byte b does in a word of which i letters are read.
pub fn word_move(w: Word, i: u8, b: u8) -> WordMove
    ensures { result ≡ word_move w i b }
{
    match w {
        Word::Null => letter_move(b"null", i, b),
        Word::True => letter_move(b"true", i, b),
        Word::False => letter_move(b"false", i, b),
    }
}
