//! Keywords and marks.

ghost use Rattle.std.specs.Prelude.{◌≡◌, bytes_eq};
ghost use Rattle.turtle_reader.specs.Words as spec;

use terminals::is_word;
use turtle_lexer::TurtleKind;

/// What a Word of the lexer is.
#[derive(Clone, Copy, Debug, PartialEq, Eq)]
pub enum Word {
    /// The verb `a`.
    A,
    True,
    False,
    Prefix,
    Base,
    Unknown,
}

/// What a Mark of the lexer is.
#[derive(Clone, Copy, Debug, PartialEq, Eq)]
pub enum Mark {
    Dot,
    Semicolon,
    Comma,
    OpenSquare,
    ShutSquare,
    OpenParen,
    ShutParen,
    Carets,
    Unknown,
}

/// Whether the bytes are these.
pub fn is_text(bytes: &[u8], wanted: &[u8]) -> bool
    ensures { result ≡ bytes_eq bytes.now wanted.now }
{
    bytes == wanted
}

/// What the bytes of a Word are.
pub fn word_of(bytes: &[u8]) -> Word
    ensures { result ≡ spec.word_of bytes.now }
{
    if is_text(bytes, b"a") {
        return Word::A;
    }
    if is_text(bytes, b"true") {
        return Word::True;
    }
    if is_text(bytes, b"false") {
        return Word::False;
    }
    if is_word(bytes, b"prefix") {
        return Word::Prefix;
    }
    if is_word(bytes, b"base") {
        return Word::Base;
    }
    Word::Unknown
}

fn short_mark(first: u8) -> Mark
    ensures { result ≡ spec.short_mark first }
{
    match first {
        b'.' => Mark::Dot,
        b';' => Mark::Semicolon,
        b',' => Mark::Comma,
        b'[' => Mark::OpenSquare,
        b']' => Mark::ShutSquare,
        b'(' => Mark::OpenParen,
        b')' => Mark::ShutParen,
        _ => Mark::Unknown,
    }
}

/// What the bytes of a Mark are.
pub fn mark_of(bytes: &[u8]) -> Mark
    ensures { result ≡ spec.mark_of bytes.now }
{
    match bytes {
        [first] => short_mark(*first),
        [_, _] => Mark::Carets,
        _ => Mark::Unknown,
    }
}

fn word_begins_object(bytes: &[u8]) -> bool
    ensures { result ≡ spec.word_begins_object (spec.word_of bytes.now) }
{
    matches!(word_of(bytes), Word::True | Word::False)
}

fn mark_begins_object(bytes: &[u8]) -> bool
    ensures { result ≡ spec.mark_begins_object (spec.mark_of bytes.now) }
{
    matches!(mark_of(bytes), Mark::OpenSquare | Mark::OpenParen)
}

/// Whether an object can begin with a token of this kind and these bytes.
pub fn begins_object(kind: TurtleKind, bytes: &[u8]) -> bool
    ensures { result ≡ spec.begins_object kind bytes.now }
{
    match kind {
        TurtleKind::IriRef
        | TurtleKind::Name
        | TurtleKind::BlankLabel
        | TurtleKind::Quoted
        | TurtleKind::Integer
        | TurtleKind::Decimal
        | TurtleKind::Double => true,
        TurtleKind::Word => word_begins_object(bytes),
        TurtleKind::Mark => mark_begins_object(bytes),
        TurtleKind::At | TurtleKind::Bad | TurtleKind::End => false,
    }
}
