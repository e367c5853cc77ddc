//! IRIs in full, where there may be no base.

ghost use Rattle.std.specs.Prelude.{◌≡◌, IfOk, is_some};
ghost use Rattle.iri_core.specs.Reference.{has_scheme};
ghost use Rattle.sparql_resolve.specs.Iris as spec;

use iri_core::{resolved_iri, split};
use rdf_terms::{Memory, TextBuf};
use std::alloc::Global;

fn has_scheme_of(text: &str) -> bool
    ensures { result ≡ has_scheme text.now }
{
    let parts = split(text);
    parts.scheme.is_some()
}

/// The IRI that the text of an IRIREF stands for; none where it is refused: where it is no
/// reference, or is a relative one and there is no base.
pub fn iri_of(
    alloc: Global,
    base: &Option<TextBuf>,
    text: &TextBuf,
) -> Result<Option<TextBuf>, Memory>
    ensures { IfOk result (λ t. t ≡ spec.iri_of base.now text.now) }
{
    match base {
        Some(base) => resolved_iri(alloc, base.as_str(), text.as_str()),
        None => {
            if !has_scheme_of(text.as_str()) {
                return Ok(None);
            }
            resolved_iri(alloc, "", text.as_str())
        }
    }
}
