use crate::cases::{append, no_case, plain, shown, texts};
use iri_core::{IriFault, Span, check, resolve, split};
use rdf_terms::Memory;
use std::alloc::Global;

fn part(alloc: Global, text: &str, from: usize, to: usize) -> Result<String, Memory> {
    match text.get(from..to) {
        Some(part) => shown(alloc, part),
        None => plain(alloc, "cut"),
    }
}

fn optional(alloc: Global, text: &str, span: Option<Span>) -> Result<String, Memory> {
    match span {
        Some(span) => part(alloc, text, span.from, span.to),
        None => plain(alloc, "none"),
    }
}

fn split_text(alloc: Global, text: &str) -> Result<String, Memory> {
    let parts = split(text);
    let mut out = optional(alloc, text, parts.scheme)?;
    append(&mut out, " ", optional(alloc, text, parts.authority))?;
    append(
        &mut out,
        " ",
        part(alloc, text, parts.path.from, parts.path.to),
    )?;
    append(&mut out, " ", optional(alloc, text, parts.query))?;
    append(&mut out, " ", optional(alloc, text, parts.fragment))?;
    Ok(out)
}

fn check_text(alloc: Global, text: &str) -> Result<String, Memory> {
    match check(text) {
        Ok(()) => plain(alloc, "fine"),
        Err(refusal) => {
            let at = refusal.at;
            Ok(format!(in alloc; "{at}")?)
        }
    }
}

fn resolve_text(alloc: Global, base: &str, text: &str) -> Result<String, Memory> {
    match resolve(alloc, base, text) {
        Ok(resolved) => shown(alloc, resolved.as_str()),
        Err(IriFault::NotAnIri { at }) => Ok(format!(in alloc; "refused {at}")?),
        Err(IriFault::Memory) => Err(Memory),
    }
}

fn answer_to(alloc: Global, base: &str, text: &str) -> Result<String, Memory> {
    let mut out = split_text(alloc, text)?;
    append(&mut out, "; ", check_text(alloc, text))?;
    append(&mut out, "; ", resolve_text(alloc, base, text))?;
    Ok(out)
}

/// The parts of the second field, its check, and what it stands for under the first.
pub fn answer(alloc: Global, line: &str) -> Result<String, Memory> {
    let Some(fields) = texts(alloc, line)? else {
        return no_case(alloc);
    };
    match fields.as_slice() {
        [base, text] => answer_to(alloc, base, text),
        _ => no_case(alloc),
    }
}
