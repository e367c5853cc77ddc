//! Inserts triples into a graph that grows, and looks patterns up in it. The first word says how: `make` makes the triples alone,
//! `insert` inserts them too, and a word of the letters s, p and o then looks up for each triple the pattern that has its terms in
//! these places and variables in the others. The second word is the number of triples; each subject, each predicate and each
//! object stands in ten of them, and no two terms together in two. The answer is the number of triples, or of places found.
use crate::fault::Fault;
use growing_graph::Graph;
use rdf_terms::{Memory, Term, TextBuf, Triple};
use rows_core::{Spot, TriplePattern};
use std::alloc::Global;

fn iri(alloc: Global, head: &str, block: u32, n: u32) -> Result<Term, Memory> {
    let text = format!(in alloc; "http://a.test/{head}/{block}/{n}")?;
    Ok(Term::Iri(TextBuf::from_string(text)?))
}

// Hundred triples make a block: ten subjects with ten triples each.
fn triple(alloc: Global, n: u32) -> Result<Triple, Memory> {
    let block = n / 100;
    let subject = n / 10 % 10;
    let member = n % 10;
    let s = iri(alloc, "s", block, subject)?;
    let p = iri(alloc, "p", block, member)?;
    let o = iri(alloc, "o", block, subject.saturating_add(member) % 10)?;
    Ok(Triple { s, p, o })
}

fn triples(alloc: Global, count: u32) -> Result<Vec<Triple>, Memory> {
    let mut triples = Vec::new(alloc);
    for n in 0..count {
        triples.push(triple(alloc, n)?)?;
    }
    Ok(triples)
}

fn graph(alloc: Global, triples: Vec<Triple>) -> Result<Graph, Memory> {
    let mut graph = Graph::new(alloc);
    for triple in triples {
        graph.insert(triple)?;
    }
    Ok(graph)
}

fn spot(is_fixed: bool, term: &Term, var: u16) -> Result<Spot, Memory> {
    if is_fixed {
        Ok(Spot::Term(term.copy()?))
    } else {
        Ok(Spot::Var(var))
    }
}

fn pattern(shape: &str, triple: &Triple) -> Result<TriplePattern, Memory> {
    let s = spot(shape.contains('s'), &triple.s, 0)?;
    let p = spot(shape.contains('p'), &triple.p, 1)?;
    let o = spot(shape.contains('o'), &triple.o, 2)?;
    Ok(TriplePattern { s, p, o })
}

fn count_found(graph: &Graph, shape: &str) -> Result<usize, Memory> {
    let mut found: usize = 0;
    for triple in graph.as_slice() {
        let pattern = pattern(shape, triple)?;
        found = found.saturating_add(graph.matching(&pattern)?.len());
    }
    Ok(found)
}

fn count_in(graph: &Graph, way: &str) -> Result<usize, Fault> {
    match way {
        "insert" => Ok(graph.len()),
        "s" | "p" | "o" | "sp" | "so" | "po" | "spo" => Ok(count_found(graph, way)?),
        _ => Err(Fault::Words),
    }
}

fn count(alloc: Global, way: &str, number: u32) -> Result<usize, Fault> {
    let triples = triples(alloc, number)?;
    if way == "make" {
        return Ok(triples.len());
    }
    let graph = graph(alloc, triples)?;
    count_in(&graph, way)
}

pub(crate) fn answer(alloc: Global, words: &[String]) -> Result<String, Fault> {
    let [way, number] = words else {
        return Err(Fault::Words);
    };
    match number.parse::<u32>() {
        Ok(number) => {
            let count = count(alloc, way.as_str(), number)?;
            Ok(format!(in alloc; "{count}")?)
        }
        Err(_) => Err(Fault::Words),
    }
}
