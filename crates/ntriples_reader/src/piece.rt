//! What the tokens of a text stand for.

ghost use Rattle.std.specs.Prelude.{◌≡◌, ◌+◌, ◌<◌, ◌^◌, IfOk, length, take, drop, slice_range};
ghost use Rattle.ntriples_reader.specs.Pieces as spec;

use iri_core::{check, split};
use rdf_terms::{Memory, TextBuf};
use std::alloc::Global;
use terminals::{iri_text, label_text, string_text, tag_text};
use turtle_lexer::{Token, TurtleKind};

/// What a token stands for.
#[derive(Debug, Drop)]
pub enum Piece {
    /// An IRI with a scheme.
    Iri(TextBuf),
    /// The label of a blank node.
    Label(TextBuf),
    /// The text of a string in one pair of double quotes.
    Text(TextBuf),
    /// A language tag in lower case.
    Tag(TextBuf),
    /// `^^`.
    Carets,
    /// `.`.
    Dot,
    /// What stands nowhere in N-Triples.
    Other,
}

/// What a token stands for, and where it begins.
#[derive(Debug, Drop)]
pub struct Item {
    pub piece: Piece,
    pub from: usize,
}

fn is_absolute(text: &str) -> bool
    ensures { result ≡ spec.is_absolute text.now }
{
    check(text).is_ok() && split(text).scheme.is_some()
}

fn iri_piece(text: Option<TextBuf>) -> Piece
    ensures { result ≡ spec.iri_piece text }
{
    match text {
        Some(text) => {
            if is_absolute(text.as_str()) {
                Piece::Iri(text)
            } else {
                Piece::Other
            }
        }
        None => Piece::Other,
    }
}

fn is_in_one_pair(bytes: &[u8]) -> bool
    ensures { result ≡ spec.is_in_one_pair bytes.now }
{
    bytes.starts_with(b"\"") && !bytes.starts_with(b"\"\"\"")
}

fn string_piece(alloc: Global, bytes: &[u8]) -> Result<Piece, Memory>
    ensures { IfOk result (λ p. p ≡ spec.string_piece bytes.now) }
{
    if !is_in_one_pair(bytes) {
        return Ok(Piece::Other);
    }
    match string_text(alloc, bytes)? {
        Some(text) => Ok(Piece::Text(text)),
        None => Ok(Piece::Other),
    }
}

fn label_piece(label: Option<TextBuf>) -> Piece
    ensures { result ≡ spec.label_piece label }
{
    match label {
        Some(label) => Piece::Label(label),
        None => Piece::Other,
    }
}

fn tag_piece(tag: Option<TextBuf>) -> Piece
    ensures { result ≡ spec.tag_piece tag }
{
    match tag {
        Some(tag) => Piece::Tag(tag),
        None => Piece::Other,
    }
}

fn mark_piece(bytes: &[u8]) -> Piece
    ensures { result ≡ spec.mark_piece bytes.now }
{
    if bytes.starts_with(b".") {
        return Piece::Dot;
    }
    if bytes.starts_with(b"^^") {
        return Piece::Carets;
    }
    Piece::Other
}

fn piece_of(alloc: Global, kind: TurtleKind, bytes: &[u8]) -> Result<Piece, Memory>
    ensures { IfOk result (λ p. p ≡ spec.piece_of kind bytes.now) }
{
    match kind {
        TurtleKind::IriRef => Ok(iri_piece(iri_text(alloc, bytes)?)),
        TurtleKind::BlankLabel => Ok(label_piece(label_text(alloc, bytes)?)),
        TurtleKind::Quoted => string_piece(alloc, bytes),
        TurtleKind::At => Ok(tag_piece(tag_text(alloc, bytes)?)),
        TurtleKind::Mark => Ok(mark_piece(bytes)),
        _ => Ok(Piece::Other),
    }
}

fn behind(bytes: &[u8], count: usize) -> &[u8]
    ensures { result.now ≡ drop count bytes.now }
{
    &bytes[count.min(bytes.len())..]
}

fn front(bytes: &[u8], count: usize) -> &[u8]
    ensures { result.now ≡ take count bytes.now }
{
    &bytes[..count.min(bytes.len())]
}

/// The bytes between two places, as far as they are there.
pub fn between(bytes: &[u8], from: usize, to: usize) -> &[u8]
    ensures value { result.now ≡ slice_range bytes.now from to }
    ensures fits { from + length result.now < 2 ^ 64 }
{
    front(behind(bytes, from), to.saturating_sub(from))
}

/// What a token of the text stands for.
#[tactic(auto, unfolding(crate::specs::Pieces::item_of))]
pub fn item_of(alloc: Global, bytes: &[u8], token: Token) -> Result<Item, Memory>
    ensures { IfOk result (λ x. x ≡ spec.item_of bytes.now token) }
{
    let piece = piece_of(alloc, token.kind, between(bytes, token.from, token.to))?;
    Ok(Item {
        piece,
        from: token.from,
    })
}
