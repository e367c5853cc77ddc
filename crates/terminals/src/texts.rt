//! The texts of tokens, by their kinds.

ghost use Rattle.std.specs.Prelude.{◌≡◌, ◌==◌, ◌+◌, ◌-◌, ◌≤◌, take, drop, length, map, position, IfOk};
ghost use Rattle.std.specs.List.{position_or_len};
ghost use Rattle.terminals.specs.Values as value;
ghost use Rattle.terminals.specs.Texts as spec;

use crate::unescaping::{behind, front, unescaped};
use rdf_terms::{Memory, TextBuf};
use std::alloc::Global;

// The bytes as a text; none where they are no UTF-8.
#[tactic(auto, using(crate::proofs::Decoding::is_text, crate::proofs::Decoding::is_none))]
fn text_of(bytes: Vec<u8>) -> Result<Option<TextBuf>, Memory>
    ensures { IfOk result (λ t. t ≡ spec.plain bytes.items) }
{
    match String::from_utf8(bytes) {
        Ok(text) => Ok(Some(TextBuf::from_string(text)?)),
        Err(_) => Ok(None),
    }
}

fn owned(alloc: Global, bytes: &[u8]) -> Result<Vec<u8>, Memory>
    ensures { IfOk result (λ v. v.items ≡ bytes.now) }
{
    Ok(Vec::from_slice(alloc, bytes)?)
}

// The bytes without so many at either end.
fn inner(bytes: &[u8], count: usize) -> &[u8]
    requires { count ≤ 3 }
    ensures { result.now ≡ value.inner count bytes.now }
{
    let rest = behind(bytes, count);
    front(rest, bytes.len().saturating_sub(count + count))
}

fn colon_position(bytes: &[u8]) -> Option<usize>
    ensures { result ≡ position (λ b. b == 58) bytes.now }
{
    bytes.iter().position(|b| *b == b':')
}

// The place of the first colon, or the end.
fn colon_at(bytes: &[u8]) -> usize
    ensures { result ≡ position_or_len (λ b. b == 58) bytes.now }
{
    match colon_position(bytes) {
        Some(at) => at,
        None => bytes.len(),
    }
}

fn quotes_of(bytes: &[u8]) -> usize
    ensures value { result ≡ value.quotes_of bytes.now }
    ensures few { result ≤ 3 }
{
    if bytes.len() >= 6 && (bytes[1] == bytes[0] && bytes[2] == bytes[0]) {
        3
    } else {
        1
    }
}

/// A letter of ASCII in lower case, and each other byte as it is.
pub fn lower(byte: u8) -> u8
    ensures { result ≡ value.lower byte }
{
    if 65 <= byte && byte <= 90 {
        byte + 32
    } else {
        byte
    }
}

fn lowered(alloc: Global, bytes: &[u8]) -> Result<Vec<u8>, Memory>
    ensures { IfOk result (λ v. v.items ≡ map value.lower bytes.now) }
{
    let mut out = Vec::new(alloc);
    for byte in bytes {
        out.push(lower(*byte))?;
    }
    Ok(out)
}

/// The text of an IRIREF, from the bytes of its token.
pub fn iri_text(alloc: Global, token: &[u8]) -> Result<Option<TextBuf>, Memory>
    ensures { IfOk result (λ t. t ≡ spec.plain (value.iri_text token.now)) }
{
    text_of(unescaped(alloc, inner(token, 1))?)
}

/// The text of a string, in one or in three quotes of either kind, from the bytes of its token.
pub fn string_text(alloc: Global, token: &[u8]) -> Result<Option<TextBuf>, Memory>
    ensures { IfOk result (λ t. t ≡ spec.plain (value.string_text token.now)) }
{
    text_of(unescaped(alloc, inner(token, quotes_of(token)))?)
}

/// The prefix of a name, from the bytes of its token: what stands before its first colon.
pub fn prefix_text(alloc: Global, token: &[u8]) -> Result<Option<TextBuf>, Memory>
    ensures { IfOk result (λ t. t ≡ spec.plain (value.prefix_text token.now)) }
{
    text_of(owned(alloc, front(token, colon_at(token)))?)
}

/// The local part of a name, from the bytes of its token: what stands behind its first colon, with
/// its escapes undone.
pub fn local_text(alloc: Global, token: &[u8]) -> Result<Option<TextBuf>, Memory>
    ensures { IfOk result (λ t. t ≡ spec.plain (value.local_text token.now)) }
{
    let at = colon_at(token);
    text_of(unescaped(alloc, behind(behind(token, at), 1))?)
}

/// The label of a blank node, from the bytes of its token: without its underscore and colon.
pub fn label_text(alloc: Global, token: &[u8]) -> Result<Option<TextBuf>, Memory>
    ensures { IfOk result (λ t. t ≡ spec.plain (value.label_text token.now)) }
{
    text_of(owned(alloc, behind(token, 2))?)
}

/// The text of a token as it stands, from its bytes.
pub fn plain_text(alloc: Global, token: &[u8]) -> Result<Option<TextBuf>, Memory>
    ensures { IfOk result (λ t. t ≡ spec.plain token.now) }
{
    text_of(owned(alloc, token)?)
}

/// The name of a variable, from the bytes of its token: without its mark.
pub fn variable_text(alloc: Global, token: &[u8]) -> Result<Option<TextBuf>, Memory>
    ensures { IfOk result (λ t. t ≡ spec.plain (spec.variable_text token.now)) }
{
    text_of(owned(alloc, behind(token, 1))?)
}

/// A language tag in lower case, from the bytes of its token: without its `@`.
pub fn tag_text(alloc: Global, token: &[u8]) -> Result<Option<TextBuf>, Memory>
    ensures { IfOk result (λ t. t ≡ spec.plain (value.tag_text token.now)) }
{
    text_of(lowered(alloc, behind(token, 1))?)
}
