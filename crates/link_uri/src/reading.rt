ghost use Rattle.std.specs.Prelude.{◌≡◌, IfOk, IfSome};
ghost use Rattle.url.specs.Host as host;
ghost use Rattle.url.specs.Parts.{host_or_empty, IsValid};
ghost use Rattle.url.specs.Parser.{Parsed, Gives};
ghost use Rattle.url.specs.Parts.{Parts};
ghost use Rattle.link_uri.specs.Links as spec;
ghost use Rattle.link_uri.specs.Links.{IsLink};

use crate::{Link, Scheme};
use rdf_terms::{Memory, TextBuf};
use std::alloc::Global;
use url::{ParseError, ParseResult, Position, Url};

/// The link of a text, or none where it has no link. It costs time in the text's length.
pub fn link_of(alloc: Global, iri: &str) -> Result<Option<Link>, Memory>
    ensures value { IfOk result (λ link. link ≡ spec.link_of iri.now) }
    ensures valid_links { IfOk result (λ link. IfSome link IsLink) }
{
    link_of_parsed(alloc, Url::parse(alloc, iri))
}

/// The link of a reference that is read against a link, or none where it has no link.
pub fn join(alloc: Global, base: &Link, location: &str) -> Result<Option<Link>, Memory>
    ensures value { IfOk result (λ link. link ≡ spec.joined_link base.now.text location.now) }
    ensures valid_links { IfOk result (λ link. IfSome link IsLink) }
{
    match Url::parse(alloc, base.text.as_str()) {
        Ok(url) => link_of_parsed(alloc, url.join(location)),
        Err(error) => link_of_parsed(alloc, Err(error)),
    }
}

// The link of what was parsed. That the text is longer than `url` takes counts as want of memory.
fn link_of_parsed(alloc: Global, parsed: ParseResult<Url>) -> Result<Option<Link>, Memory>
    ensures value { (expected : Parsed Parts) → Gives parsed expected
        → IfOk result (λ link. link ≡ spec.link_of_parsed expected) }
    ensures valid_links { IfOk result (λ link. IfSome link IsLink) }
{
    match parsed {
        Ok(url) => link_of_url(alloc, &url),
        Err(ParseError::OutOfMemory) | Err(ParseError::Overflow) => Err(Memory),
        Err(_) => Ok(None),
    }
}

fn link_of_url(alloc: Global, url: &Url) -> Result<Option<Link>, Memory>
    ensures value { IfOk result (λ link. link ≡ spec.link_of_url url.now) }
    ensures valid_links { IfOk result (λ link. IfSome link IsLink) }
{
    if !is_web(url) {
        return Ok(None);
    }
    Ok(Some(web_link(alloc, url)?))
}

fn is_web(url: &Url) -> bool
    ensures { result ≡ spec.is_web url.now }
{
    let scheme = url.scheme();
    let is_http = scheme == "http" || scheme == "https";
    let has_credentials = !url.username().is_empty() || url.password().is_some();
    is_http && (url.has_host() && !has_credentials)
}

fn scheme_of(url: &Url) -> Scheme
    ensures { result ≡ spec.scheme_of url.now }
{
    if url.scheme() == "http" {
        Scheme::Http
    } else {
        Scheme::Https
    }
}

// Empty where there is no host.
fn host_text(url: &Url) -> &str
    ensures { result.now ≡ host.host_text (host_or_empty url.now) }
{
    url.slice(Position::BeforeHost, Position::AfterHost)
}

fn web_link(alloc: Global, url: &Url) -> Result<Link, Memory>
    ensures value { IfOk result (λ link. link ≡ spec.web_link url.now) }
    ensures valid { IsValid url.now }
{
    let text = TextBuf::from_str(
        alloc,
        url.slice(Position::BeforeScheme, Position::AfterQuery),
    )?;
    let host = TextBuf::from_str(alloc, host_text(url))?;
    let target = TextBuf::from_str(alloc, url.slice(Position::BeforePath, Position::AfterQuery))?;
    Ok(Link {
        text,
        scheme: scheme_of(url),
        host,
        port: url.port_or_known_default().unwrap_or(0),
        target,
    })
}
