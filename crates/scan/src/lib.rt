// Scans of a book's bytes: where a separator is, and what a field may be and means.
#![tactic(auto)]

ghost use Rattle.std.specs.Prelude.{◌≡◌, cond, ◌+◌, ◌*◌, ◌-◌, ◌≤◌, ltb, eqb, ℕ, [], ◌∷◌, position, MatchOption, fold};
ghost use Rattle.std.specs.List.{list_all};
ghost use Rattle.book.specs.Text.{between, split, is_number, number};
ghost use Rattle.book.specs.Line.{is_key, behind_r, is_kind, is_form, kind_in};
ghost use Rattle.scan.specs.Scan.{below, kind_below, word_of, FirstPart};

use table::kind::{Scalar, ValueKind};

// The place of the first byte c.
fn place(s: &[u8], c: u8) -> Option<usize>
    ensures { result ≡ position (λ b. eqb b c) s.now }
{
    s.iter().position(|b| *b == c)
}

// The bytes before the first byte c, and those behind it.
pub fn cut(s: &[u8], c: u8) -> Option<(&[u8], &[u8])>
    ensures { MatchOption result (split c s.now ≡ s.now ∷ []) (λ p. FirstPart c s.now p.0.now p.1.now) }
{
    let i = place(s, c)?;
    Some((&s[..i], &s[i + 1..]))
}

#[tactic(auto, unfolding(book::specs::Text::between))]
fn is_between(low: u8, high: u8, b: u8) -> bool
    ensures { result ≡ between low high b }
{
    low <= b && b <= high
}

// Every byte is from low to high.
fn all_between(s: &[u8], low: u8, high: u8) -> bool
    ensures { result ≡ list_all (between low high) s.now }
{
    s.iter().all(|b| is_between(low, high, *b))
}

// The field is a number without a leading zero.
pub fn is_number(s: &[u8]) -> bool
    ensures { result ≡ is_number s.now }
{
    match s.split_first() {
        Some((first, rest)) => is_between(b'0', b'9', *first)
            & all_between(rest, b'0', b'9')
            & ((*first != b'0') | rest.is_empty()),
        None => false,
    }
}

fn digit(b: u8) -> u32
    ensures { (result ≡ b - 48) × (result ≤ 255) }
{
    b.saturating_sub(b'0') as u32
}

// One digit more, until the limit is reached. A number never grows past ten times its limit, so none wraps.
fn grow(acc: u32, limit: u8, b: u8) -> u32
    ensures { result ≡ cond (ltb acc limit) (acc * 10 + (b - 48)) acc }
{
    if acc < limit as u32 {
        return acc * 10 + digit(b);
    }
    acc
}

// The digits one after the other, until the limit is reached.
fn grown(s: &[u8], limit: u8) -> u32
    ensures { result ≡ fold (λ acc b. cond (ltb acc limit) (acc * 10 + (b - 48)) acc) 0 s.now }
{
    s.iter().fold(0, |acc, b| grow(acc, limit, *b))
}

// What the digits mean, where that is below the limit.
pub fn value(s: &[u8], limit: u8) -> Option<u8>
    ensures { result ≡ below limit (number s.now) }
{
    let n = grown(s, limit);
    if n < limit as u32 {
        Some(n as u8)
    } else {
        None
    }
}

// The field is a key.
#[tactic(auto, unfolding(book::specs::Line::is_key), using(crate::proofs::ScanLaws::all_list, table::proofs::KeyLaws::same_pointwise))]
pub fn is_key(s: &[u8]) -> bool
    ensures { result ≡ is_key s.now }
{
    (1..=32).contains(&s.len()) && all_between(s, 0x21, 0x7E) && s != b"-".as_slice()
}

// The plain kind that a field names.
#[tactic(auto, unfolding(crate::specs::Scan::word_of), using(table::proofs::KeyLaws::same_pointwise))]
fn plain_word(s: &[u8]) -> Option<Scalar>
    ensures { result ≡ word_of s.now }
{
    if s == b"null".as_slice() {
        return Some(Scalar::Null);
    }
    if s == b"true".as_slice() {
        return Some(Scalar::True);
    }
    if s == b"false".as_slice() {
        return Some(Scalar::False);
    }
    if s == b"str".as_slice() {
        return Some(Scalar::Str);
    }
    if s == b"num".as_slice() {
        return Some(Scalar::Num);
    }
    if s == b"int".as_slice() {
        return Some(Scalar::Int);
    }
    None
}

// What follows an `r`; nothing, where the field begins with another byte.
#[tactic(auto, unfolding(book::specs::Line::behind_r))]
fn behind_r(s: &[u8]) -> &[u8]
    ensures { result.now ≡ behind_r s.now }
{
    match s.split_first() {
        Some((first, rest)) if *first == b'r' => rest,
        _ => &[],
    }
}

// The field is the word of a plain kind, or `r` and a number.
pub fn is_kind(s: &[u8]) -> bool
    ensures { result ≡ is_kind s.now }
{
    plain_word(s).is_some() | is_number(behind_r(s))
}

// The value kind that a field names, where it refers to a rule below 32 or to none.
pub fn kind_in(s: &[u8]) -> Option<ValueKind>
    ensures { result ≡ kind_below (kind_in s.now) }
{
    match plain_word(s) {
        Some(kind) => Some(ValueKind::Plain(kind)),
        None => Some(ValueKind::Rule(value(behind_r(s), 32)?)),
    }
}

// The field is `obj` or `arr`.
#[tactic(auto, unfolding(book::specs::Line::is_form), using(table::proofs::KeyLaws::same_pointwise))]
pub fn is_form(s: &[u8]) -> bool
    ensures { result ≡ is_form s.now }
{
    (s == b"obj".as_slice()) | (s == b"arr".as_slice())
}
