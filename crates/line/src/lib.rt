// One line of a book: its fields, and what it says by itself, refusals 3 and 4.
#![tactic(auto)]

ghost use Rattle.std.specs.Prelude.{◌≡◌, MatchOption, option_map};
ghost use Rattle.laws.specs.Lists.{same};
ghost use Rattle.book.specs.Line.{bad, formed as isFormed, form_of, key_of, say_line, word_end, dash};
ghost use Rattle.line.specs.Line.{form_in, entry_in, said, say_six, small_entry, keyed, formed_end};

use table::kind::{Form, ValueKind};

// Why a line is refused: refusals 3 to 7. A line by itself has only the first two.
#[derive(Clone, Copy, PartialEq, Eq)]
pub enum Fault {
    Malformed,
    AboveLimit,
    TooMany,
    FormChanged,
    Repeated,
}

// What an edge says. Without a key, the key is empty.
// Stays: an empty key for none, as in an entry of the book: with an Option each contract from `key_named` to `store::take_entry` says besides that a key has a byte.
#[derive(Clone, Copy)]
pub struct EdgeLine<'a> {
    pub key: &'a [u8],
    pub kind: ValueKind,
    pub next: u8,
}

// What a line says: an edge, or an end state where there is none.
#[derive(Clone, Copy)]
pub struct Line<'a> {
    pub rule: u8,
    pub form: Form,
    pub state: u8,
    pub edge: Option<EdgeLine<'a>>,
}

// The six fields of a line.
#[derive(Clone, Copy)]
struct Fields<'a> {
    rule: &'a [u8],
    form: &'a [u8],
    state: &'a [u8],
    key: &'a [u8],
    value: &'a [u8],
    next: &'a [u8],
}

// The fields of a line, if it has exactly five spaces.
fn cut(line: &[u8]) -> Option<Fields>
    ensures { MatchOption result (say_line line.now ≡ bad 3) (λ f. say_line line.now ≡ say_six f) }
{
    let (rule, rest) = scan::cut(line, b' ')?;
    let (form, rest) = scan::cut(rest, b' ')?;
    let (state, rest) = scan::cut(rest, b' ')?;
    let (key, rest) = scan::cut(rest, b' ')?;
    let (value, next) = scan::cut(rest, b' ')?;
    match scan::cut(next, b' ') {
        Some(_) => None,
        None => Some(Fields {
            rule,
            form,
            state,
            key,
            value,
            next,
        }),
    }
}

// The field is `-`, which stands for none.
#[tactic(auto, using(table::proofs::KeyLaws::same_pointwise))]
fn is_dash(field: &[u8]) -> bool
    ensures { result ≡ same field.now dash }
{
    field == b"-".as_slice()
}

// The field is `end`.
#[tactic(auto, using(table::proofs::KeyLaws::same_pointwise))]
fn is_end(field: &[u8]) -> bool
    ensures { result ≡ same field.now word_end }
{
    field == b"end".as_slice()
}

// The key is one of an edge with the form.
#[tactic(auto, unfolding(crate::specs::Line::keyed), using(table::proofs::KeyLaws::same_pointwise))]
fn is_keyed(form: &[u8], key: &[u8]) -> bool
    ensures { result ≡ keyed form.now key.now }
{
    if form == b"obj".as_slice() {
        scan::is_key(key)
    } else {
        is_dash(key)
    }
}

// Key, value and next are well formed.
#[tactic(auto, unfolding(crate::specs::Line::formed_end), using(table::proofs::KeyLaws::same_pointwise))]
fn is_formed_end(form: &[u8], key: &[u8], value: &[u8], next: &[u8]) -> bool
    ensures { result ≡ formed_end form.now key.now value.now next.now }
{
    if is_end(value) {
        return is_dash(key) & is_dash(next);
    }
    scan::is_kind(value) & (scan::is_number(next) & is_keyed(form, key))
}

// The six fields are well formed.
#[tactic(auto, unfolding(book::specs::Line::formed, crate::specs::Line::formed_end, crate::specs::Line::keyed))]
fn is_formed(f: &Fields) -> bool
    ensures { result ≡ isFormed f.now.rule.now f.now.form.now f.now.state.now f.now.key.now f.now.value.now f.now.next.now }
{
    scan::is_number(f.rule)
        & (scan::is_form(f.form)
            & (scan::is_number(f.state) & is_formed_end(f.form, f.key, f.value, f.next)))
}

// The form that a field names.
#[tactic(auto, unfolding(book::specs::Line::form_of), using(table::proofs::KeyLaws::same_pointwise))]
fn form_named(field: &[u8]) -> Form
    ensures { form_in result ≡ form_of field.now }
{
    if field == b"obj".as_slice() {
        Form::Object
    } else {
        Form::Array
    }
}

// The key that a field names.
#[tactic(auto, unfolding(book::specs::Line::key_of))]
fn key_named(field: &[u8]) -> &[u8]
    ensures { result.now ≡ key_of field.now }
{
    if is_dash(field) { &[] } else { field }
}

// What six well-formed fields say, where their numbers are below their limits.
fn small_line<'a>(f: &Fields<'a>) -> Option<Line<'a>>
    ensures { option_map entry_in result ≡ small_entry f.now }
{
    let rule = scan::value(f.rule, 32)?;
    let state = scan::value(f.state, 16)?;
    let form = form_named(f.form);
    if is_end(f.value) {
        return Some(Line {
            rule,
            form,
            state,
            edge: None,
        });
    }
    let kind = scan::kind_in(f.value)?;
    let next = scan::value(f.next, 16)?;
    let key = key_named(f.key);
    Some(Line {
        rule,
        form,
        state,
        edge: Some(EdgeLine { key, kind, next }),
    })
}

// What six fields say, or their fault.
fn judge_fields<'a>(f: &Fields<'a>) -> Result<Line<'a>, Fault>
    ensures { said result ≡ say_six f.now }
{
    if !is_formed(f) {
        return Err(Fault::Malformed);
    }
    small_line(f).ok_or(Fault::AboveLimit)
}

// What a line without its LF says, or its fault.
pub fn judge(l: &[u8]) -> Result<Line, Fault>
    ensures { said result ≡ say_line l.now }
{
    let f = cut(l).ok_or(Fault::Malformed)?;
    judge_fields(&f)
}
