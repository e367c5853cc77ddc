use crate::cases::{append, no_case, plain, shown, texts};
use link_uri::{Link, Scheme, join, link_of};
use rdf_terms::Memory;
use std::alloc::Global;

fn scheme_text(scheme: Scheme) -> &'static str {
    match scheme {
        Scheme::Http => "http",
        Scheme::Https => "https",
    }
}

fn host_text(alloc: Global, link: &Link) -> Result<String, Memory> {
    let host = shown(alloc, link.host.as_str())?;
    let scheme = scheme_text(link.scheme);
    let port = link.port;
    Ok(format!(in alloc; "{scheme} {host} {port}")?)
}

fn parts_text(alloc: Global, link: &Link) -> Result<String, Memory> {
    let mut out = shown(alloc, link.text.as_str())?;
    append(&mut out, " ", host_text(alloc, link))?;
    append(&mut out, " ", shown(alloc, link.target.as_str()))?;
    Ok(out)
}

fn link_text(alloc: Global, link: Result<Option<Link>, Memory>) -> Result<String, Memory> {
    match link? {
        Some(link) => parts_text(alloc, &link),
        None => plain(alloc, "none"),
    }
}

fn joined_text(alloc: Global, base: &str, text: &str) -> Result<String, Memory> {
    match link_of(alloc, base)? {
        Some(base) => link_text(alloc, join(alloc, &base, text)),
        None => plain(alloc, "none"),
    }
}

fn answer_to(alloc: Global, base: &str, text: &str) -> Result<String, Memory> {
    let own = link_text(alloc, link_of(alloc, text))?;
    let joined = joined_text(alloc, base, text)?;
    Ok(format!(in alloc; "{own}; {joined}")?)
}

/// The link of the second field, and its join to the link of the first.
pub fn answer(alloc: Global, line: &str) -> Result<String, Memory> {
    let Some(fields) = texts(alloc, line)? else {
        return no_case(alloc);
    };
    match fields.as_slice() {
        [base, text] => answer_to(alloc, base, text),
        _ => no_case(alloc),
    }
}
