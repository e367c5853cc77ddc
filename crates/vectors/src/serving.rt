use crate::cases::{bytes, no_case};
use rdf_terms::Memory;
use site_core::{SiteFault, read_site, serve};
use std::alloc::Global;

fn response(alloc: Global, site: &[u8], request: &[u8]) -> Result<String, Memory> {
    let site = match read_site(alloc, site) {
        Ok(site) => site,
        Err(SiteFault::Bad { at }) => return Ok(format!(in alloc; "bad {at}")?),
        Err(SiteFault::Memory) => return Err(Memory),
    };
    let response = serve(alloc, &site, request)?;
    let digits = hex::encode(alloc, response.as_slice())?;
    Ok(format!(in alloc; "x{digits}")?)
}

/// The response of a site to a request; the case is the site's text and the request.
pub fn answer(alloc: Global, line: &str) -> Result<String, Memory> {
    let Some((site, request)) = line.split_once(' ') else {
        return no_case(alloc);
    };
    let Some(site) = bytes(alloc, site)? else {
        return no_case(alloc);
    };
    let Some(request) = bytes(alloc, request)? else {
        return no_case(alloc);
    };
    response(alloc, site.as_slice(), request.as_slice())
}
