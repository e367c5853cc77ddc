//! IRIs in full.

ghost use Rattle.std.specs.Prelude.{◌≡◌, ◌++◌, Some, None, IfOk, OnOk, IsErrOf};
ghost use Rattle.iri_core.specs.Refusal.{place_refused};
ghost use Rattle.iri_core.specs.Resolution.{resolved};
ghost use Rattle.iri_core.specs.Iris as spec;

use crate::refusal::check;
use crate::resolution::{IriFault, resolve};
use rdf_terms::{Memory, TextBuf};
use std::alloc::Global;

/// The IRI that the text of an IRIREF stands for under the base; none where it is refused.
pub fn resolved_iri(alloc: Global, base: &str, text: &str) -> Result<Option<TextBuf>, Memory>
    ensures { IfOk result (λ t. t ≡ spec.resolved_iri base.now text.now) }
{
    match resolve(alloc, base, text) {
        Ok(iri) => Ok(Some(iri)),
        Err(IriFault::NotAnIri { at: _ }) => Ok(None),
        Err(IriFault::Memory) => Err(Memory),
    }
}

/// The IRI that a prefix's IRI and a local name make; none where it is refused.
pub fn prefixed_iri(
    alloc: Global,
    iri: &TextBuf,
    local: &TextBuf,
) -> Result<Option<TextBuf>, Memory>
    ensures { IfOk result (λ t. t ≡ spec.prefixed_iri iri.now local.now) }
{
    let mut text = String::from_str(alloc, iri.as_str())?;
    text.push_str(local.as_str())?;
    match check(text.as_str()) {
        Ok(()) => Ok(Some(TextBuf::from_string(text)?)),
        Err(_) => Ok(None),
    }
}
