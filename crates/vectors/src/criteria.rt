//! Cases of reachability criteria: a query with one basic graph pattern, and triples, as the module `algebra_case` has them.
//! An answer has for each criterion which triples it selects, and the links that those name.

use crate::algebra_case::{Case, Fault, read_case};
use crate::cases::{append, no_case, shown};
use algebra_core::Algebra;
use link_uri::Link;
use rdf_terms::{Memory, Triple};
use reach_criteria::{Criterion, links_of, selects};
use rows_core::TriplePattern;
use std::alloc::Global;

/// What each criterion selects and follows.
pub fn answer(alloc: Global, line: &str) -> Result<String, Memory> {
    match read_case(alloc, line) {
        Ok(case) => case_text(alloc, &case),
        Err(Fault::NoCase) => no_case(alloc),
        Err(Fault::Memory) => Err(Memory),
    }
}

fn case_text(alloc: Global, case: &Case) -> Result<String, Memory> {
    match &case.query.body {
        Algebra::Bgp(patterns) => criteria_text(
            alloc,
            case.triples.as_slice(),
            patterns.as_slice(),
        ),
        _ => no_case(alloc),
    }
}

fn criteria_text(
    alloc: Global,
    triples: &[Triple],
    patterns: &[TriplePattern],
) -> Result<String, Memory> {
    let mut out = criterion_text(alloc, triples, patterns, Criterion::All)?;
    let none = criterion_text(alloc, triples, patterns, Criterion::None);
    append(&mut out, "; ", none)?;
    let matching = criterion_text(alloc, triples, patterns, Criterion::Match);
    append(&mut out, "; ", matching)?;
    Ok(out)
}

fn criterion_text(
    alloc: Global,
    triples: &[Triple],
    patterns: &[TriplePattern],
    criterion: Criterion,
) -> Result<String, Memory> {
    let mut out = selected_text(alloc, triples, patterns, criterion)?;
    let links = links_of(alloc, triples, criterion, patterns)?;
    append(&mut out, " ", links_text(alloc, links.as_slice()))?;
    Ok(out)
}

// A digit for each triple.
fn selected_text(
    alloc: Global,
    triples: &[Triple],
    patterns: &[TriplePattern],
    criterion: Criterion,
) -> Result<String, Memory> {
    let mut out = String::from_str(alloc, "=")?;
    for triple in triples {
        let is_selected = selects(criterion, triple, patterns);
        out.push_str(if is_selected { "1" } else { "0" })?;
    }
    Ok(out)
}

fn links_text(alloc: Global, links: &[Link]) -> Result<String, Memory> {
    let mut out = String::from_str(alloc, "links")?;
    for link in links {
        append(&mut out, " ", shown(alloc, link.text.as_str()))?;
    }
    Ok(out)
}
