//! Reads its input as a document of N-Triples and evaluates the query that its word is over it, or reads the document alone where
//! the word is no query: how many triples and rows there are.
use crate::fault::Fault;
use crate::input;
use algebra_core::{Query, evaluate_query};
use doc_reader::read_ntriples;
use rdf_terms::Triple;
use sparql_parser::{QueryFault, read_query};
use std::alloc::Global;
use std::io::Read;
use turtle_reader::ReadFault;

fn triples_of(alloc: Global, bytes: &[u8]) -> Result<Vec<Triple>, Fault> {
    match read_ntriples(alloc, "http://a.test/1", bytes) {
        Ok(triples) => Ok(triples),
        Err(ReadFault::Memory) => Err(Fault::Memory),
        Err(_) => Err(Fault::Input),
    }
}

fn count_solutions(alloc: Global, query: &Query, triples: &[Triple]) -> Result<usize, Fault> {
    let rows = evaluate_query(alloc, query, triples)?;
    Ok(rows.len())
}

// How many rows there are, or 0 where the text is no query.
fn count_rows(alloc: Global, text: &str, triples: &[Triple]) -> Result<usize, Fault> {
    match read_query(alloc, text) {
        Ok(query) => count_solutions(alloc, &query, triples),
        Err(QueryFault::Memory) => Err(Fault::Memory),
        Err(_) => Ok(0),
    }
}

fn read(alloc: Global, text: &str, bytes: &[u8]) -> Result<String, Fault> {
    let triples = triples_of(alloc, bytes)?;
    let rows = count_rows(alloc, text, triples.as_slice())?;
    let number = triples.len();
    Ok(format!(in alloc; "{number} {rows}")?)
}

pub(crate) fn answer<R: Read + Drop>(
    alloc: Global,
    words: &[String],
    input: R,
) -> Result<String, Fault> {
    let [text] = words else {
        return Err(Fault::Words);
    };
    let bytes = input::bytes(alloc, input)?;
    read(alloc, text.as_str(), bytes.as_slice())
}
