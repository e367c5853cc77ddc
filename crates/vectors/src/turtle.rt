use crate::cases::{bytes, no_case, shown, text};
use rdf_terms::{Memory, Triple, write_term};
use std::alloc::Global;
use turtle_reader::{ReadFault, read_turtle};

fn push_triple(out: &mut String, alloc: Global, triple: &Triple) -> Result<(), Memory> {
    for term in [&triple.s, &triple.p, &triple.o] {
        let form = write_term(alloc, term)?;
        out.push_str(form.as_str())?;
        out.push_str(" ")?;
    }
    out.push_str(".\n")?;
    Ok(())
}

fn triples_text(alloc: Global, triples: &[Triple]) -> Result<String, Memory> {
    let mut out = String::new(alloc);
    for triple in triples {
        push_triple(&mut out, alloc, triple)?;
    }
    shown(alloc, out.as_str())
}

fn answer_text(alloc: Global, read: Result<Vec<Triple>, ReadFault>) -> Result<String, Memory> {
    match read {
        Ok(triples) => triples_text(alloc, triples.as_slice()),
        Err(ReadFault::Syntax { at }) => Ok(format!(in alloc; "syntax {at}")?),
        Err(ReadFault::Deep { at }) => Ok(format!(in alloc; "deep {at}")?),
        Err(ReadFault::Memory) => Err(Memory),
    }
}

fn named(alloc: Global, name: &str, document: &str) -> Result<String, Memory> {
    let Some(name) = text(alloc, name)? else {
        return no_case(alloc);
    };
    let Some(document) = bytes(alloc, document)? else {
        return no_case(alloc);
    };
    answer_text(
        alloc,
        read_turtle(alloc, name.as_str(), name.as_str(), document.as_slice()),
    )
}

/// The triples of a Turtle text, or its fault with its place. The first field is the document's link,
/// which is the base at the beginning too.
pub fn answer(alloc: Global, line: &str) -> Result<String, Memory> {
    match line.split_once(' ') {
        Some((name, document)) => named(alloc, name, document),
        None => no_case(alloc),
    }
}
