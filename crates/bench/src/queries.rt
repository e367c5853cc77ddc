//! Reads its input as a query, as many times as its word says: how many bytes came, and how many of these times they were a
//! query.
use crate::fault::Fault;
use crate::input;
use sparql_parser::{QueryFault, read_query};
use std::alloc::Global;
use std::io::Read;
use std::str;

fn count(alloc: Global, text: &str, times: u32) -> Result<usize, Fault> {
    let mut count = 0usize;
    for _ in 0..times {
        match read_query(alloc, text) {
            Ok(_) => count = count.saturating_add(1),
            Err(QueryFault::Memory) => return Err(Fault::Memory),
            Err(_) => {}
        }
    }
    Ok(count)
}

fn read(alloc: Global, bytes: &[u8], times: u32) -> Result<String, Fault> {
    let length = bytes.len();
    let text = str::from_utf8(bytes).unwrap_or("");
    let count = count(alloc, text, times)?;
    Ok(format!(in alloc; "{length} {count}")?)
}

pub(crate) fn answer<R: Read + Drop>(
    alloc: Global,
    words: &[String],
    input: R,
) -> Result<String, Fault> {
    let [times] = words else {
        return Err(Fault::Words);
    };
    let Ok(times) = times.parse::<u32>() else {
        return Err(Fault::Words);
    };
    let bytes = input::bytes(alloc, input)?;
    read(alloc, bytes.as_slice(), times)
}
