ghost use Rattle.std.specs.Prelude.{◌≡◌, position};
ghost use Rattle.std.specs.List.{list_all};
ghost use Rattle.iri_core.specs.Refusal.{is_excluded, is_letter, is_scheme_byte, begins_with_letter, is_scheme, has_bad_scheme, checked};

use crate::parts::{first_of, is_at};
use thiserror::Error;

/// The text isn't an IRI reference; `at` is the place of the fault in bytes, as `check` has it.
#[derive(Clone, Copy, Debug, Drop, PartialEq, Eq, Error)]
#[error("not an IRI reference, at byte {at}")]
pub struct NotAnIri {
    pub at: usize,
}

fn is_excluded(byte: u8) -> bool
    ensures { result ≡ is_excluded byte }
{
    byte <= b' ' || b"<>\"{}|^`\\".contains(&byte)
}

fn is_letter(byte: u8) -> bool
    ensures { result ≡ is_letter byte }
{
    (byte >= b'A' && byte <= b'Z') || (byte >= b'a' && byte <= b'z')
}

fn is_scheme_byte(byte: u8) -> bool
    ensures { result ≡ is_scheme_byte byte }
{
    is_letter(byte) || (byte >= b'0' && byte <= b'9') || b"+-.".contains(&byte)
}

#[tactic(auto, unfolding(crate::specs::Refusal::begins_with_letter))]
fn begins_with_letter(bytes: &[u8]) -> bool
    ensures { result ≡ begins_with_letter bytes.now }
{
    bytes.len() > 0 && is_letter(bytes[0])
}

fn all_scheme_bytes(bytes: &[u8]) -> bool
    ensures { result ≡ list_all is_scheme_byte bytes.now }
{
    bytes.iter().all(|b| is_scheme_byte(*b))
}

fn is_scheme(bytes: &[u8]) -> bool
    ensures { result ≡ is_scheme bytes.now }
{
    begins_with_letter(bytes) && all_scheme_bytes(bytes)
}

#[tactic(auto, unfolding(crate::specs::Refusal::has_bad_scheme))]
fn has_bad_scheme(bytes: &[u8]) -> bool
    ensures { result ≡ has_bad_scheme bytes.now }
{
    let end = first_of(b":/?#", bytes, 0);
    is_at(bytes, end, b':') && !is_scheme(&bytes[..end])
}

fn first_excluded(bytes: &[u8]) -> Option<usize>
    ensures { result ≡ position is_excluded bytes.now }
{
    bytes.iter().position(|b| is_excluded(*b))
}

/// Refuses a text that is no IRI reference: at its first character that an IRIREF excludes, else at
/// 0 where a colon comes before any of `/`, `?` and `#` and what stands before it is no scheme.
pub fn check(text: &str) -> Result<(), NotAnIri>
    ensures { result ≡ checked text.now }
{
    let bytes = text.as_bytes();
    if let Some(at) = first_excluded(bytes) {
        return Err(NotAnIri { at });
    }
    if has_bad_scheme(bytes) {
        return Err(NotAnIri { at: 0 });
    }
    Ok(())
}
