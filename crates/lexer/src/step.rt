// A byte anywhere in a text: what it does, and where the next byte stands.
ghost use Rattle.std.specs.Prelude.{◌≡◌};
ghost use Rattle.json_text.specs.Bytes.{is_blank};
ghost use Rattle.json_text.specs.Lexer.{step_to, fault_step, stay, value_start, at_value, at_first_element, at_first_key, at_key, at_colon, after_root, after_element, after_pair, after_value, at_first, place_step, key_step, text_step, ended_before, number_step, word_step, number_move, word_move, step_of};
ghost use Rattle.chars.specs.Table.{class_at};
ghost use Rattle.lexer.specs.Given.{step_by};

use super::number::number_move;
use super::word::word_move;
use chars::class::Classes;
use chars::string::string_move_in;
use json_text::class::Class;
use json_text::lexer::{Act, Awaited, Mode, Step, Top};
use json_text::number::{NumberMode, NumberMove};
use json_text::string::{StringMode, StringMove};
use json_text::word::{Word, WordMove};

// Act a, and then mode m; no number ends.
fn step_to(m: Mode, a: Act) -> Step
    ensures { result ≡ step_to m a }
{
    Step {
        mode: m,
        ends: false,
        act: a,
    }
}

// The step of a byte with which no text goes on.
fn fault_step() -> Step
    ensures { result ≡ fault_step }
{
    step_to(Mode::At(Awaited::Value), Act::Fault)
}

// Nothing happens, and place p is next.
fn stay(p: Awaited) -> Step
    ensures { result ≡ stay p }
{
    step_to(Mode::At(p), Act::Pass)
}

// A blank.
pub fn is_blank(b: u8) -> bool
    ensures { result ≡ is_blank b }
{
    matches!(b, b' ' | b'\t' | b'\n' | b'\r')
}

// The first byte of a value.
fn value_start(b: u8) -> Step
    ensures { result ≡ value_start b }
{
    match b {
        b'"' => step_to(Mode::Text(StringMode::Char), Act::TextStart),
        b'[' => step_to(Mode::At(Awaited::First), Act::OpenArray),
        b'{' => step_to(Mode::At(Awaited::First), Act::OpenObject),
        b'1'..=b'9' => step_to(Mode::Number(NumberMode::Int), Act::NumberStart),
        b'0' => step_to(Mode::Number(NumberMode::Zero), Act::NumberStart),
        b'-' => step_to(Mode::Number(NumberMode::Minus), Act::NumberStart),
        b'n' => step_to(Mode::Word(Word::Null, 1), Act::Pass),
        b't' => step_to(Mode::Word(Word::True, 1), Act::Pass),
        b'f' => step_to(Mode::Word(Word::False, 1), Act::Pass),
        _ => fault_step(),
    }
}

// Where a value is awaited.
fn at_value(b: u8) -> Step
    ensures { result ≡ at_value b }
{
    match b {
        b' ' | b'\t' | b'\n' | b'\r' => stay(Awaited::Value),
        _ => value_start(b),
    }
}

// After the opening byte of an array.
fn at_first_element(b: u8) -> Step
    ensures { result ≡ at_first_element b }
{
    match b {
        b' ' | b'\t' | b'\n' | b'\r' => stay(Awaited::First),
        b']' => step_to(Mode::At(Awaited::After), Act::Close),
        _ => value_start(b),
    }
}

// After the opening byte of an object.
fn at_first_key(b: u8) -> Step
    ensures { result ≡ at_first_key b }
{
    match b {
        b' ' | b'\t' | b'\n' | b'\r' => stay(Awaited::First),
        b'}' => step_to(Mode::At(Awaited::After), Act::Close),
        b'"' => step_to(Mode::Key(StringMode::Char), Act::KeyStart),
        _ => fault_step(),
    }
}

// After a comma of an object.
fn at_key(b: u8) -> Step
    ensures { result ≡ at_key b }
{
    match b {
        b' ' | b'\t' | b'\n' | b'\r' => stay(Awaited::Key),
        b'"' => step_to(Mode::Key(StringMode::Char), Act::KeyStart),
        _ => fault_step(),
    }
}

// After a key.
fn at_colon(b: u8) -> Step
    ensures { result ≡ at_colon b }
{
    match b {
        b' ' | b'\t' | b'\n' | b'\r' => stay(Awaited::Colon),
        b':' => stay(Awaited::Value),
        _ => fault_step(),
    }
}

// After the value of the whole text.
fn after_root(b: u8) -> Step
    ensures { result ≡ after_root b }
{
    match b {
        b' ' | b'\t' | b'\n' | b'\r' => stay(Awaited::After),
        _ => fault_step(),
    }
}

// After an element of an array.
fn after_element(b: u8) -> Step
    ensures { result ≡ after_element b }
{
    match b {
        b' ' | b'\t' | b'\n' | b'\r' => stay(Awaited::After),
        b',' => stay(Awaited::Value),
        b']' => step_to(Mode::At(Awaited::After), Act::Close),
        _ => fault_step(),
    }
}

// After a pair of an object.
fn after_pair(b: u8) -> Step
    ensures { result ≡ after_pair b }
{
    match b {
        b' ' | b'\t' | b'\n' | b'\r' => stay(Awaited::After),
        b',' => stay(Awaited::Key),
        b'}' => step_to(Mode::At(Awaited::After), Act::Close),
        _ => fault_step(),
    }
}

// After a value, by what it stands in.
fn after_value(top: Top, b: u8) -> Step
    ensures { result ≡ after_value top b }
{
    match top {
        Top::Bare => after_root(b),
        Top::Array => after_element(b),
        Top::Object => after_pair(b),
    }
}

// After an opening byte, by what it opened.
fn at_first(top: Top, b: u8) -> Step
    ensures { result ≡ at_first top b }
{
    match top {
        Top::Bare | Top::Array => at_first_element(b),
        Top::Object => at_first_key(b),
    }
}

// Between tokens.
#[inline(always)]
fn place_step(p: Awaited, top: Top, b: u8) -> Step
    ensures { result ≡ place_step p top b }
{
    match p {
        Awaited::Value => at_value(b),
        Awaited::First => at_first(top, b),
        Awaited::Key => at_key(b),
        Awaited::Colon => at_colon(b),
        Awaited::After => after_value(top, b),
    }
}

// A move inside a key.
fn key_step(m: StringMove) -> Step
    ensures { result ≡ key_step m }
{
    match m {
        StringMove::Fault => fault_step(),
        StringMove::Go(s) => step_to(Mode::Key(s), Act::Pass),
        StringMove::Char => step_to(Mode::Key(StringMode::Char), Act::KeyChar),
        StringMove::Close => step_to(Mode::At(Awaited::Colon), Act::KeyEnd),
    }
}

// A move inside a string that is a value.
// Stays: beside `key_step`, since one function for both takes a closure and a clause over it, 31 lines in place of 20.
fn text_step(m: StringMove) -> Step
    ensures { result ≡ text_step m }
{
    match m {
        StringMove::Fault => fault_step(),
        StringMove::Go(s) => step_to(Mode::Text(s), Act::Pass),
        StringMove::Char => step_to(Mode::Text(StringMode::Char), Act::TextChar),
        StringMove::Close => step_to(Mode::At(Awaited::After), Act::TextEnd),
    }
}

// The step st, with a number ended before it.
fn ended_before(st: Step) -> Step
    ensures { result ≡ ended_before st }
{
    Step { ends: true, ..st }
}

// Byte b after part n of a number.
pub fn number_step(n: NumberMode, top: Top, b: u8) -> Step
    ensures { result ≡ number_step (number_move n b) top b }
{
    match number_move(n, b) {
        NumberMove::Fault => fault_step(),
        NumberMove::Go(next) => step_to(Mode::Number(next), Act::NumberByte),
        NumberMove::End => ended_before(after_value(top, b)),
    }
}

// Byte b in a word of which i letters are read.
fn word_step(w: Word, i: u8, b: u8) -> Step
    ensures { result ≡ word_step (word_move w i b) w i }
{
    match word_move(w, i, b) {
        WordMove::Fault => fault_step(),
        WordMove::Go => step_to(Mode::Word(w, i + 1), Act::Pass),
        WordMove::End => step_to(Mode::At(Awaited::After), Act::WordEnd(w)),
    }
}

// What byte b does in mode m, with the innermost open value of kind top and the byte's class from a lent table. Ruled out: a key that is read like a
// string that is a value, and a word of which a letter is passed over.
#[inline(always)]
pub fn step_in(table: &[Class; 256], m: Mode, top: Top, b: u8) -> Step
    ensures { result ≡ step_by (class_at table.now b) m top b }
{
    match m {
        Mode::At(p) => place_step(p, top, b),
        Mode::Key(s) => key_step(string_move_in(table, s, b)),
        Mode::Text(s) => text_step(string_move_in(table, s, b)),
        Mode::Number(n) => number_step(n, top, b),
        Mode::Word(w, i) => word_step(w, i, b),
    }
}

// What byte b does in mode m, with the innermost open value of kind top. Ruled out: a step by a table that gives a byte another class, and a step
// for another kind of open value.
#[inline(always)]
pub fn step(classes: &Classes, m: Mode, top: Top, b: u8) -> Step
    ensures { result ≡ step_of m top b }
{
    step_in(classes.table(), m, top, b)
}
