use crate::cases::{bytes, no_case};
use rdf_terms::Memory;
use site_core::{Site, SiteFault, read_site, write_site};
use std::alloc::Global;

fn site_text(alloc: Global, site: &Site) -> Result<String, Memory> {
    let written = write_site(alloc, site)?;
    let digits = hex::encode(alloc, written.as_slice())?;
    Ok(format!(in alloc; "site x{digits}")?)
}

/// The text of the site that the bytes are read as, or the place of their first fault.
pub fn answer(alloc: Global, line: &str) -> Result<String, Memory> {
    let Some(text) = bytes(alloc, line)? else {
        return no_case(alloc);
    };
    match read_site(alloc, text.as_slice()) {
        Ok(site) => site_text(alloc, &site),
        Err(SiteFault::Bad { at }) => Ok(format!(in alloc; "bad {at}")?),
        Err(SiteFault::Memory) => Err(Memory),
    }
}
