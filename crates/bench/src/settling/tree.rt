//! Documents that lead to one another, and a query.
use algebra_core::{Algebra, Query};
use rdf_terms::{Memory, Seq, Term, TextBuf, Triple};
use rows_core::{Spot, TriplePattern};
use std::alloc::Global;

/// The text of a link by its number.
pub(crate) fn link_text(alloc: Global, number: u32) -> Result<String, Memory> {
    Ok(format!(in alloc; "http://a.test/{number}")?)
}

fn iri(alloc: Global, text: &str) -> Result<Term, Memory> {
    let text = TextBuf::from_str(alloc, text)?;
    Ok(Term::Iri(text))
}

fn link_iri(alloc: Global, number: u32) -> Result<Term, Memory> {
    let text = link_text(alloc, number)?;
    iri(alloc, text.as_str())
}

fn subject_and_object(alloc: Global, from: &str, to: u32) -> Result<(Term, Term), Memory> {
    let subject = iri(alloc, from)?;
    let object = link_iri(alloc, to)?;
    Ok((subject, object))
}

fn triple(alloc: Global, from: &str, to: u32) -> Result<Triple, Memory> {
    let (s, o) = subject_and_object(alloc, from, to)?;
    let p = iri(alloc, "urn:v:names")?;
    Ok(Triple { s, p, o })
}

/// The document of a number: it names the next `named` links of a tree in which each has so many, but those from
/// `links` on.
pub(crate) fn document(
    alloc: Global,
    number: u32,
    links: u32,
    named: u32,
) -> Result<Seq<Triple>, Memory> {
    let mut triples = Seq::new(alloc);
    let from = link_text(alloc, number)?;
    let first = number.saturating_mul(named).saturating_add(1);
    let end = first.saturating_add(named).min(links);
    for to in first..end {
        triples.push(triple(alloc, from.as_str(), to)?)?;
    }
    Ok(triples)
}

fn names(alloc: Global) -> Result<Seq<TextBuf>, Memory> {
    let mut names = Seq::new(alloc);
    names.push(TextBuf::from_str(alloc, "o")?)?;
    Ok(names)
}

fn selection(alloc: Global) -> Result<Seq<u16>, Memory> {
    let mut select = Seq::new(alloc);
    select.push(0)?;
    Ok(select)
}

fn pattern(alloc: Global) -> Result<TriplePattern, Memory> {
    let s = Spot::Term(iri(alloc, "urn:v:none")?);
    let p = Spot::Term(iri(alloc, "urn:v:none")?);
    let o = Spot::Var(0);
    Ok(TriplePattern { s, p, o })
}

fn body(alloc: Global) -> Result<Algebra, Memory> {
    let mut patterns = Seq::new(alloc);
    patterns.push(pattern(alloc)?)?;
    Ok(Algebra::Bgp(patterns))
}

fn asked(alloc: Global, names: Seq<TextBuf>, select: Seq<u16>, body: Algebra) -> Query {
    Query {
        names,
        width: 1,
        select,
        distinct: false,
        body,
        order: Seq::new(alloc),
    }
}

/// `SELECT ?o WHERE { <urn:v:none> <urn:v:none> ?o }`
pub(crate) fn query(alloc: Global) -> Result<Query, Memory> {
    let body = body(alloc)?;
    let names = names(alloc)?;
    let select = selection(alloc)?;
    Ok(asked(alloc, names, select, body))
}
