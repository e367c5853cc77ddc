ghost use Rattle.std.specs.Prelude.{◌≡◌, ◌++◌, None, IfOk};
ghost use Rattle.site_core.specs.Fields as fields;
ghost use Rattle.site_core.specs.Growth as spec;
ghost use Rattle.site_core.specs.Lines.{last_link};

use crate::fields::is_site_link;
use crate::steps::follows;
use crate::viable::begins;
use link_uri::Reply;
use rdf_terms::{Memory, TextBuf};
use std::alloc::Global;

// One of these makes a site link of each part that a site link begins with, but of a part of
// `http://`: within a path or a query, behind an authority, within a port, a domain, and an address
// in brackets.
const ENDINGS: [&[u8]; 13] = [
    b"~", b"/", b"1/", b"~/", b"]/", b"1]/", b":]/", b"::]/", b":1::]/", b"1::]/", b":1:1]/",
    b"1:1]/", b":1]/",
];

/// Whether a link that may stand behind the entries begins with this text. It takes time by the
/// text's length.
pub(crate) fn link_grows(
    alloc: Global,
    entries: &[(TextBuf, Reply)],
    text: &[u8],
) -> Result<bool, Memory>
    ensures { IfOk result (λ grows. grows ≡ spec.link_grows (last_link None entries.now) text.now) }
{
    if begins_last(entries, text) {
        return Ok(true);
    }
    if !follows(entries, text) {
        return Ok(false);
    }
    if begins(b"http://", text) {
        return Ok(true);
    }
    ends_in_link(alloc, text)
}

// Whether the last of the links begins with the text.
fn begins_last(entries: &[(TextBuf, Reply)], text: &[u8]) -> bool
    ensures { result ≡ spec.begins_last (last_link None entries.now) text.now }
{
    match entries.last() {
        Some(last) => begins(last.0.as_str().as_bytes(), text),
        None => false,
    }
}

fn ends_in_link(alloc: Global, text: &[u8]) -> Result<bool, Memory>
    ensures { IfOk result (λ ends. ends ≡ spec.ends_in_link text.now) }
{
    for ending in ENDINGS {
        if makes_link(alloc, text, ending)? {
            return Ok(true);
        }
    }
    Ok(false)
}

// Whether the text and then the ending are a site link.
fn makes_link(alloc: Global, text: &[u8], ending: &[u8]) -> Result<bool, Memory>
    ensures { IfOk result (λ makes. makes ≡ fields.is_site_link (text.now ++ ending.now)) }
{
    let mut link = Vec::from_slice(alloc, text)?;
    link.extend_from_slice(ending)?;
    is_site_link(alloc, link.as_slice())
}
