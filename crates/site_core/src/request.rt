ghost use Rattle.std.specs.Prelude.{◌≡◌, ◌≤◌, ℕ, List, length, map, codes, All, IfOk, IfSome, None};
ghost use Rattle.std.specs.Option.{option_copied};
ghost use Rattle.httparse.specs.Grammar.{RequestHead, ReadsRequest};
ghost use Rattle.httparse.specs.Spans.{IsHeaderWithin, IsRequestAt, IsRequestWithin, header_bytes};
ghost use Rattle.link_uri.specs.Heard.{is_name};
ghost use Rattle.site_core.specs.Serving as spec;

use httparse::Status;
use httparse::spans::{HeaderSpan, RequestSpans, parse_request};
use link_uri::{Link, link_of};
use rdf_terms::Memory;
use std::alloc::Global;

/// The most fields of a request's head.
pub(crate) const MAX_FIELDS: usize = 64;

/// The parts of the head that a request begins with, or none where it begins with no head that has
/// so few fields.
pub(crate) fn parse_head(request: &[u8], headers: &mut [HeaderSpan]) -> Option<RequestSpans>
    requires { length headers.old ≡ spec.max_fields }
    ensures within { IfSome result (IsRequestWithin request.now headers.new) }
    ensures known { IfSome result (λ r. (h : RequestHead) × (rest : List ℕ) × ReadsRequest request.now h rest × (length h.fields ≤ spec.max_fields) × IsRequestAt request.now headers.new r h) }
    ensures none { result ≡ None → spec.BeginsWith request.now None }
{
    match parse_request(request, headers) {
        Ok(Status::Complete(head)) => Some(head),
        _ => None,
    }
}

fn is_host(name: &[u8]) -> bool
    ensures { result ≡ is_name (codes "Host") name.now }
{
    name.eq_ignore_ascii_case(b"Host")
}

/// The value of the one Host field, or none where there is none or more than one.
pub(crate) fn only_host<'a>(request: &'a [u8], headers: &[HeaderSpan]) -> Option<&'a [u8]>
    requires { All (IsHeaderWithin (length request.now)) headers.now }
    ensures { option_copied result ≡ spec.only (spec.hosts (map (header_bytes request.entry.now) headers.now)) }
{
    let mut host = None;
    for header in headers {
        if is_host(header.name.of(request)) {
            if host.is_some() {
                return None;
            }
            host = Some(header.value.of(request));
        }
    }
    host
}

/// The link that a target asks for, or none where it asks for none.
pub(crate) fn asked_link(alloc: Global, target: &[u8], host: &[u8]) -> Result<Option<Link>, Memory>
    ensures { IfOk result (λ link. link ≡ spec.asked_link target.now host.now) }
{
    if target.starts_with(b"http://") {
        return link_of_bytes(alloc, target);
    }
    if !target.starts_with(b"/") {
        return Ok(None);
    }
    let mut text = Vec::from_slice(alloc, b"http://")?;
    text.extend_from_slice(host)?;
    text.extend_from_slice(target)?;
    link_of_bytes(alloc, text.as_slice())
}

fn link_of_bytes(alloc: Global, bytes: &[u8]) -> Result<Option<Link>, Memory>
    ensures { IfOk result (λ link. link ≡ spec.link_of_bytes bytes.now) }
{
    match str::from_utf8(bytes) {
        Ok(text) => link_of(alloc, text),
        Err(_) => Ok(None),
    }
}
