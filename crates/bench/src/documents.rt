//! Reads its input as a document of N-Triples (word `ntriples`) or of Turtle (word `turtle`): how many bytes came, and how many
//! triples they are or the place of the fault; or reads it alone (word `read`).
use crate::fault::Fault;
use crate::input;
use doc_reader::read_ntriples;
use rdf_terms::Triple;
use std::alloc::Global;
use std::io::Read;
use turtle_reader::{ReadFault, read_turtle};

const LINK: &str = "http://a.test/1";

fn shown(
    alloc: Global,
    count: usize,
    read: Result<Vec<Triple>, ReadFault>,
) -> Result<String, Fault> {
    match read {
        Ok(triples) => {
            let number = triples.len();
            Ok(format!(in alloc; "{count} {number}")?)
        }
        Err(ReadFault::Syntax { at }) => Ok(format!(in alloc; "{count} syntax {at}")?),
        Err(ReadFault::Deep { at }) => Ok(format!(in alloc; "{count} deep {at}")?),
        Err(ReadFault::Memory) => Err(Fault::Memory),
    }
}

fn length(alloc: Global, count: usize) -> Result<String, Fault> {
    Ok(format!(in alloc; "{count}")?)
}

fn read(alloc: Global, way: &str, bytes: &[u8]) -> Result<String, Fault> {
    let count = bytes.len();
    match way {
        "ntriples" => shown(alloc, count, read_ntriples(alloc, LINK, bytes)),
        "turtle" => shown(alloc, count, read_turtle(alloc, LINK, LINK, bytes)),
        "read" => length(alloc, count),
        _ => Err(Fault::Words),
    }
}

pub(crate) fn answer<R: Read + Drop>(
    alloc: Global,
    words: &[String],
    input: R,
) -> Result<String, Fault> {
    let [way] = words else {
        return Err(Fault::Words);
    };
    let bytes = input::bytes(alloc, input)?;
    read(alloc, way.as_str(), bytes.as_slice())
}
