//! Reads its input whole, by the loop of `outer_ports` (word `source`) or by std (word `std`): how many bytes came.
use crate::fault::Fault;
use crate::input;
use outer_ports::{ReadSource, SourceFault, read_all};
use std::alloc::Global;
use std::io::Read;

/// How many bytes the loop of `outer_ports` reads.
pub(crate) fn by_source<R: Read + Drop>(alloc: Global, input: R) -> Result<usize, Fault> {
    let mut source = ReadSource::new(input);
    match read_all(alloc, &mut source, usize::MAX) {
        Ok(bytes) => Ok(bytes.len()),
        Err(SourceFault::Failed) => Err(Fault::Input),
        Err(SourceFault::Memory) => Err(Fault::Memory),
    }
}

fn by_std<R: Read + Drop>(alloc: Global, input: R) -> Result<usize, Fault> {
    let bytes = input::bytes(alloc, input)?;
    Ok(bytes.len())
}

fn count<R: Read + Drop>(alloc: Global, way: &str, input: R) -> Result<usize, Fault> {
    match way {
        "source" => by_source(alloc, input),
        "std" => by_std(alloc, input),
        _ => Err(Fault::Words),
    }
}

pub(crate) fn answer<R: Read + Drop>(
    alloc: Global,
    words: &[String],
    input: R,
) -> Result<String, Fault> {
    let [way] = words else {
        return Err(Fault::Words);
    };
    let count = count(alloc, way.as_str(), input)?;
    Ok(format!(in alloc; "{count}")?)
}
