use crate::cases::{bytes, no_case, shown, text};
use doc_reader::read_ntriples;
use rdf_terms::{Memory, Term, Triple, write_term};
use std::alloc::Global;
use turtle_reader::ReadFault;

fn push_term(alloc: Global, out: &mut String, term: &Term) -> Result<(), Memory> {
    let written = write_term(alloc, term)?;
    let form = shown(alloc, written.as_str())?;
    out.push_str(form.as_str())?;
    Ok(())
}

fn push_triple(alloc: Global, out: &mut String, triple: &Triple) -> Result<(), Memory> {
    push_term(alloc, out, &triple.s)?;
    out.push_str(" ")?;
    push_term(alloc, out, &triple.p)?;
    out.push_str(" ")?;
    push_term(alloc, out, &triple.o)?;
    out.push_str(";")?;
    Ok(())
}

/// Triples, each ended by a semicolon, with single spaces between their terms.
fn triples_text(alloc: Global, triples: &[Triple]) -> Result<String, Memory> {
    let mut out = String::new(alloc);
    for triple in triples {
        push_triple(alloc, &mut out, triple)?;
    }
    Ok(out)
}

fn answer_text(alloc: Global, read: Result<Vec<Triple>, ReadFault>) -> Result<String, Memory> {
    match read {
        Ok(triples) => triples_text(alloc, triples.as_slice()),
        Err(ReadFault::Syntax { at }) => Ok(format!(in alloc; "syntax {at}")?),
        Err(ReadFault::Deep { at }) => Ok(format!(in alloc; "deep {at}")?),
        Err(ReadFault::Memory) => Err(Memory),
    }
}

fn named(alloc: Global, name: &str, document: &str) -> Result<String, Memory> {
    let Some(name) = text(alloc, name)? else {
        return no_case(alloc);
    };
    let Some(document) = bytes(alloc, document)? else {
        return no_case(alloc);
    };
    answer_text(
        alloc,
        read_ntriples(alloc, name.as_str(), document.as_slice()),
    )
}

/// The triples of an N-Triples text, or its fault: of the document's name and the text.
pub fn ntriples(alloc: Global, line: &str) -> Result<String, Memory> {
    match line.split_once(' ') {
        Some((name, document)) => named(alloc, name, document),
        None => no_case(alloc),
    }
}
