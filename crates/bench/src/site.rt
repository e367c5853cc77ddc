//! Reads a site: how many bytes came (word `bytes`), how many links the site has (word `read`), or how many bytes its text
//! has when it is written again (word `write`).
use crate::fault::Fault;
use crate::input;
use site_core::{Site, SiteFault, read_site, write_site};
use std::alloc::Global;
use std::io::Read;

fn site_of(alloc: Global, bytes: &[u8]) -> Result<Site, Fault> {
    match read_site(alloc, bytes) {
        Ok(site) => Ok(site),
        Err(SiteFault::Bad { .. }) => Err(Fault::Input),
        Err(SiteFault::Memory) => Err(Fault::Memory),
    }
}

fn links(alloc: Global, bytes: &[u8]) -> Result<usize, Fault> {
    let site = site_of(alloc, bytes)?;
    Ok(site.len())
}

fn written(alloc: Global, bytes: &[u8]) -> Result<usize, Fault> {
    let site = site_of(alloc, bytes)?;
    let text = write_site(alloc, &site)?;
    Ok(text.as_slice().len())
}

fn count(alloc: Global, way: &str, bytes: &[u8]) -> Result<usize, Fault> {
    match way {
        "bytes" => Ok(bytes.len()),
        "read" => links(alloc, bytes),
        "write" => written(alloc, bytes),
        _ => Err(Fault::Words),
    }
}

pub(crate) fn answer<R: Read + Drop>(
    alloc: Global,
    words: &[String],
    input: R,
) -> Result<String, Fault> {
    let [way] = words else {
        return Err(Fault::Words);
    };
    let bytes = input::bytes(alloc, input)?;
    let count = count(alloc, way.as_str(), bytes.as_slice())?;
    Ok(format!(in alloc; "{count}")?)
}
