ghost use Rattle.std.specs.Prelude.{◌≡◌, IfOk};
ghost use Rattle.std.specs.Option.{option_copied};
ghost use Rattle.site_core.specs.Serving as spec;

use crate::request::{MAX_FIELDS, asked_link, only_host, parse_head};
use crate::response::{method_refusal, refusal, reply_text};
use crate::site::Site;
use httparse::spans::EMPTY_HEADER_SPAN;
use link_uri::Link;
use rdf_terms::{ByteBuf, Memory};
use std::alloc::Global;

/// The response of a site to the bytes of a request (RFC 9112 and RFC 9110, in the part that
/// `specs/Serving.antt` has). A request that can't be answered gets a refusal: 400, 404 or 405. It
/// takes time by the bytes of the request and of the response, and by the logarithm of the entries.
pub fn serve(alloc: Global, site: &Site, request: &[u8]) -> Result<ByteBuf, Memory>
    ensures { IfOk result (spec.IsServed site.now request.now) }
{
    let mut headers = [EMPTY_HEADER_SPAN; MAX_FIELDS];
    match parse_head(request, &mut headers) {
        Some(head) => answer_to(
            alloc,
            site,
            head.method.of(request),
            head.path.of(request),
            only_host(request, &headers[..head.headers]),
        ),
        None => refusal(alloc, 400),
    }
}

fn answer_to(
    alloc: Global,
    site: &Site,
    method: &[u8],
    target: &[u8],
    host: Option<&[u8]>,
) -> Result<ByteBuf, Memory>
    ensures { IfOk result (λ text. text ≡ spec.answer_to site.now method.now target.now (option_copied host.entry)) }
{
    let Some(host) = host else {
        return refusal(alloc, 400);
    };
    if method != b"GET".as_slice() {
        return method_refusal(alloc);
    }
    let link = asked_link(alloc, target, host)?;
    answer_for(alloc, site, &link)
}

fn answer_for(alloc: Global, site: &Site, link: &Option<Link>) -> Result<ByteBuf, Memory>
    ensures { IfOk result (λ text. text ≡ spec.answer_for site.now link.now) }
{
    let Some(link) = link else {
        return refusal(alloc, 400);
    };
    match site.get(link.text.as_str()) {
        Some(reply) => reply_text(alloc, reply),
        None => refusal(alloc, 404),
    }
}
