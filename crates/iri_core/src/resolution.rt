ghost use Rattle.std.specs.Prelude.{◌≡◌, ◌++◌, ◌||◌, ◌↔◌, ℕ, Some, None, is_some, OnOk, IfOk, IsErrOf, IsTrue};
ghost use Rattle.std.specs.String.{string_bytes};
ghost use Rattle.std.specs.Option.{ForSome, option_copied, option_map};
ghost use Rattle.iri_core.specs.Reference.{has_scheme, IsCut};
ghost use Rattle.iri_core.specs.Refusal.{place_refused};
ghost use Rattle.iri_core.specs.Resolution.{piece_of, components, up_to_last_slash, directory, target_path, target_query, target, behind, scheme_text, recomposed, resolved};
ghost use Rattle.iri_core.specs.Seen.{seen};

use crate::dots::push_without_dots;
use crate::parts::{Span, piece, split};
use crate::refusal::{NotAnIri, check};
use rdf_terms::{Memory, TextBuf};
use std::alloc::{AllocError, Global};
use thiserror::Error;

/// Why a reference isn't resolved.
#[derive(Clone, Copy, Debug, Drop, PartialEq, Eq, Error)]
pub enum IriFault {
    /// The text isn't an IRI reference, by `check`.
    #[error("not an IRI reference, at byte {at}")]
    NotAnIri { at: usize },
    /// Memory ran out.
    #[error("out of memory")]
    Memory,
}

impl From<NotAnIri> for IriFault {
    ghost use Rattle.iri_core.specs.declared.resolution.IriFault.{IriFault};

    ghost from_gives = { λ refused e. e ≡ IriFault.NotAnIri refused.at };

    fn from(refused: NotAnIri) -> Self {
        IriFault::NotAnIri { at: refused.at }
    }
}

impl From<Memory> for IriFault {
    ghost use Rattle.iri_core.specs.declared.resolution.IriFault.{IriFault};

    ghost from_gives = { λ _ e. e ≡ IriFault.Memory };

    fn from(_: Memory) -> Self {
        IriFault::Memory
    }
}

// The parts of a reference as texts.
#[derive(Clone, Copy)]
struct Pieces<'a> {
    scheme: Option<&'a str>,
    authority: Option<&'a str>,
    path: &'a str,
    query: Option<&'a str>,
    fragment: Option<&'a str>,
}

fn optional_piece(text: &str, part: Option<Span>) -> Option<&str>
    requires { ForSome part (IsCut text.now) }
    ensures value { option_copied result ≡ option_map (piece_of text.now) part }
    ensures variant { is_some result ≡ is_some part }
{
    match part {
        Some(span) => Some(piece(text, span)),
        None => None,
    }
}

#[tactic(auto, unfolding(crate::specs::Resolution::components))]
fn pieces_of(text: &str) -> Pieces<'_>
    ensures value { seen result ≡ components text.now }
    ensures scheme { is_some result.scheme ≡ has_scheme text.now }
{
    let parts = split(text);
    Pieces {
        scheme: optional_piece(text, parts.scheme),
        authority: optional_piece(text, parts.authority),
        path: piece(text, parts.path),
        query: optional_piece(text, parts.query),
        fragment: optional_piece(text, parts.fragment),
    }
}

fn up_to_last_slash(path: &str) -> &str
    ensures { result.now ≡ up_to_last_slash path.now }
{
    match path.rfind('/') {
        Some(at) => &path[..at + 1],
        None => "",
    }
}

fn directory<'a>(base: &Pieces<'a>) -> &'a str
    ensures { result.now ≡ directory (seen base.now) }
{
    if base.authority.is_some() && base.path.is_empty() {
        "/"
    } else {
        up_to_last_slash(base.path)
    }
}

fn push_path(
    alloc: Global,
    out: &mut String,
    base: &Pieces,
    reference: &Pieces,
) -> Result<(), Memory>
    ensures { OnOk result
        (string_bytes out.new ≡ string_bytes out.old ++ target_path (seen base.now) (seen reference.now)) }
{
    let path = reference.path;
    if reference.authority.is_some() {
        return push_without_dots(alloc, out, path);
    }
    if path.is_empty() {
        out.push_str(base.path)?;
        return Ok(());
    }
    if path.as_bytes()[0] == b'/' {
        return push_without_dots(alloc, out, path);
    }
    let mut merged = String::from_str(alloc, directory(base))?;
    merged.push_str(path)?;
    push_without_dots(alloc, out, merged.as_str())
}

fn push_behind(out: &mut String, mark: &str, part: Option<&str>) -> Result<(), Memory>
    ensures { OnOk result (string_bytes out.new ≡ string_bytes out.old ++ behind mark.now (option_copied part.entry)) }
{
    if let Some(part) = part {
        out.push_str(mark)?;
        out.push_str(part)?;
    }
    Ok(())
}

fn push_scheme(out: &mut String, scheme: Option<&str>) -> Result<(), Memory>
    ensures { OnOk result (string_bytes out.new ≡ string_bytes out.old ++ scheme_text (option_copied scheme.entry)) }
{
    if let Some(scheme) = scheme {
        out.push_str(scheme)?;
        out.push_str(":")?;
    }
    Ok(())
}

fn target_query<'a>(base: &Pieces<'a>, reference: &Pieces<'a>) -> Option<&'a str>
    ensures { option_copied result ≡ target_query (seen base.now) (seen reference.now) }
{
    if reference.authority.is_none() && reference.path.is_empty() && reference.query.is_none() {
        base.query
    } else {
        reference.query
    }
}

// The text that a reference without a scheme stands for.
fn target(alloc: Global, base: &Pieces, reference: &Pieces) -> Result<String, Memory>
    ensures { IfOk result
        (λ out. string_bytes out ≡ recomposed (target (seen base.now) (seen reference.now))) }
{
    let mut out = String::new(alloc);
    push_scheme(&mut out, base.scheme)?;
    push_behind(&mut out, "//", reference.authority.or(base.authority))?;
    push_path(alloc, &mut out, base, reference)?;
    push_behind(&mut out, "?", target_query(base, reference))?;
    push_behind(&mut out, "#", reference.fragment)?;
    Ok(out)
}

/// The text that a reference stands for under a base. A text with a scheme stands for itself; any
/// base is taken, and a scheme that it lacks is left out.
pub fn resolve(alloc: Global, base: &str, text: &str) -> Result<TextBuf, IriFault>
    ensures value { IfOk result (λ t. t ≡ resolved base.now text.now) }
    ensures accepted { OnOk result (place_refused text.now ≡ None) }
    ensures refused { (at : ℕ)
        → IsErrOf result (IriFault.NotAnIri at) ↔ (place_refused text.now ≡ Some at) }
    ensures as_written { IsTrue (has_scheme text.now) → IfOk result (λ t. t ≡ text.now) }
    ensures scheme { IsTrue (has_scheme base.now || has_scheme text.now)
        → IfOk result (λ t. IsTrue (has_scheme t)) }
{
    check(text)?;
    let reference = pieces_of(text);
    if reference.scheme.is_some() {
        return Ok(TextBuf::from_str(alloc, text)?);
    }
    let out = target(alloc, &pieces_of(base), &reference)?;
    Ok(TextBuf::from_string(out)?)
}
