//! What the answer for a link comes to.

ghost use Rattle.std.specs.Prelude.{◌≡◌, ◌≢◌, IfOk, IfSome, OnOk, Some};
ghost use Rattle.link_uri.specs.Links.{IsLink};
ghost use Rattle.link_uri.specs.declared.heard.Heard.TheVariants.{Never};
ghost use Rattle.turtle_reader.specs.Reading.{turtle_reading};
ghost use Rattle.doc_reader.specs.Outcome.{HasLinks};
ghost use Rattle.ntriples_reader.specs.Reading.{ntriples_reading};
ghost use Rattle.doc_reader.specs.Outcome as spec;

use link_uri::{Heard, Link, Reply, Scheme, join};
use ntriples_reader::read_ntriples;
use rdf_terms::{ByteBuf, Memory, Seq};
use reachability::{Outcome, Why};
use std::alloc::Global;
use turtle_reader::{ReadFault, read_turtle};

fn is_redirect(status: u16) -> bool
    ensures { result ≡ spec.is_redirect status }
{
    status == 301 || (status == 302 || (status == 303 || (status == 307 || status == 308)))
}

fn link_behind(alloc: Global, link: &Link, location: &[u8]) -> Result<Option<Link>, Memory>
    ensures value { IfOk result (λ to. to ≡ spec.link_behind link.now location.now) }
    ensures valid_links { IfOk result (λ to. IfSome to IsLink) }
{
    match str::from_utf8(location) {
        Ok(text) => join(alloc, link, text),
        Err(_) => Ok(None),
    }
}

fn location_link(
    alloc: Global,
    link: &Link,
    location: &Option<ByteBuf>,
) -> Result<Option<Link>, Memory>
    ensures value { IfOk result (λ to. to ≡ spec.location_link link.now location.now) }
    ensures valid_links { IfOk result (λ to. IfSome to IsLink) }
{
    match location {
        None => Ok(None),
        Some(location) => link_behind(alloc, link, location.as_slice()),
    }
}

fn moved_or_refused(to: Option<Link>) -> Outcome
    requires { IfSome to IsLink }
    ensures value { result ≡ spec.moved_or_refused to }
    ensures links { HasLinks result }
{
    match to {
        Some(to) => Outcome::Moved(to),
        None => Outcome::Refused(Why::Location),
    }
}

fn ntriples_outcome(alloc: Global, link: &Link, body: &[u8]) -> Result<Outcome, Memory>
    ensures value { IfOk result (λ o. o ≡ spec.ntriples_outcome (ntriples_reading link.now.text body.now)) }
    ensures links { IfOk result HasLinks }
{
    match read_ntriples(alloc, link.text.as_str(), body) {
        Ok(triples) => Ok(Outcome::Document(Seq::from_vec(triples))),
        Err(ReadFault::Syntax { at }) => Ok(Outcome::Refused(Why::Syntax(at))),
        Err(ReadFault::Deep { at }) => Ok(Outcome::Refused(Why::Deep(at))),
        Err(ReadFault::Memory) => Err(Memory),
    }
}

// The text of the link is the base of Turtle at the beginning, too.
fn turtle_outcome(alloc: Global, link: &Link, body: &[u8]) -> Result<Outcome, Memory>
    ensures value { IfOk result (λ o. o ≡ spec.turtle_outcome (turtle_reading link.now.text link.now.text body.now)) }
    ensures links { IfOk result HasLinks }
{
    let text = link.text.as_str();
    match read_turtle(alloc, text, text, body) {
        Ok(triples) => Ok(Outcome::Document(Seq::from_vec(triples))),
        Err(ReadFault::Syntax { at }) => Ok(Outcome::Refused(Why::Syntax(at))),
        Err(ReadFault::Deep { at }) => Ok(Outcome::Refused(Why::Deep(at))),
        Err(ReadFault::Memory) => Err(Memory),
    }
}

fn text_outcome(alloc: Global, link: &Link, reply: &Reply) -> Result<Outcome, Memory>
    ensures value { IfOk result (λ o. o ≡ spec.text_outcome link.now reply.now) }
    ensures links { IfOk result HasLinks }
{
    let body = reply.body.as_slice();
    if reply.is_turtle() {
        return turtle_outcome(alloc, link, body);
    }
    ntriples_outcome(alloc, link, body)
}

fn body_outcome(alloc: Global, link: &Link, reply: &Reply, limit: u64) -> Result<Outcome, Memory>
    ensures value { IfOk result (λ o. o ≡ spec.body_outcome link.now reply.now limit) }
    ensures links { IfOk result HasLinks }
{
    if !reply.is_uncoded() {
        return Ok(Outcome::Refused(Why::Coding));
    }
    if !(reply.is_turtle() || reply.is_ntriples()) {
        return Ok(Outcome::Refused(Why::Media));
    }
    if limit < reply.body.len() as u64 {
        return Ok(Outcome::Refused(Why::Length));
    }
    text_outcome(alloc, link, reply)
}

fn reply_outcome(alloc: Global, link: &Link, reply: &Reply, limit: u64) -> Result<Outcome, Memory>
    ensures value { IfOk result (λ o. o ≡ spec.reply_outcome link.now reply.now limit) }
    ensures links { IfOk result HasLinks }
{
    if is_redirect(reply.status) {
        let to = location_link(alloc, link, &reply.location)?;
        return Ok(moved_or_refused(to));
    }
    if reply.status != 200 {
        return Ok(Outcome::Refused(Why::Status(reply.status)));
    }
    body_outcome(alloc, link, reply, limit)
}

fn heard_outcome(alloc: Global, link: &Link, heard: &Heard, limit: u64) -> Result<Outcome, Memory>
    requires { heard.now ≢ Never }
    ensures value { IfOk result (λ o. Some o ≡ spec.heard_outcome link.now heard.now limit) }
    ensures links { IfOk result HasLinks }
{
    match heard {
        Heard::Reply(reply) => reply_outcome(alloc, link, reply, limit),
        Heard::Malformed => Ok(Outcome::Refused(Why::Head)),
        Heard::TooLong => Ok(Outcome::Refused(Why::Length)),
        Heard::Never => unreachable!(),
    }
}

/// What the answer for a link comes to, with a limit on the bytes of a body. It takes the time of
/// reading the body.
pub fn classify(alloc: Global, link: &Link, heard: &Heard, limit: u64) -> Result<Outcome, Memory>
    requires valid_links { IsLink link.now }
    requires answered { heard.now ≢ Never }
    ensures value { IfOk result (λ o. Some o ≡ spec.outcome link.now heard.now limit) }
    ensures links { IfOk result HasLinks }
{
    match link.scheme {
        Scheme::Https => Ok(Outcome::Refused(Why::Scheme)),
        Scheme::Http => heard_outcome(alloc, link, heard, limit),
    }
}
