ghost use Rattle.std.specs.Prelude.{◌≡◌, ◌++◌, string_bytes, IfOk, OnOk};
ghost use Rattle.http_message.specs.Request as spec;

use link_uri::Link;
use rdf_terms::{ByteBuf, Memory};
use std::alloc::Global;

/// The port that a request's host leaves out (RFC 9110, section 4.2.1).
const HTTP_PORT: u16 = 80;

/// The request for a link: to its own server, or `via` a proxy.
pub fn request_bytes(alloc: Global, link: &Link, via: bool) -> Result<ByteBuf, Memory>
    ensures { IfOk result (λ bytes. bytes ≡ spec.request_text link.now via) }
{
    let mut text = ByteBuf::new(alloc);
    push_line(&mut text, link, via)?;
    push_host(alloc, &mut text, link)?;
    push_wishes(&mut text)?;
    Ok(text)
}

fn push_three(text: &mut ByteBuf, a: &[u8], b: &[u8], c: &[u8]) -> Result<(), Memory>
    ensures { OnOk result (text.new ≡ text.old ++ (a.now ++ (b.now ++ c.now))) }
{
    text.extend(a)?;
    text.extend(b)?;
    text.extend(c)
}

fn target(link: &Link, via: bool) -> &[u8]
    ensures { result.now ≡ spec.target_of link.now via }
{
    if via {
        link.text.as_str().as_bytes()
    } else {
        link.target.as_str().as_bytes()
    }
}

fn port_text(alloc: Global, link: &Link) -> Result<String, Memory>
    ensures { IfOk result (λ text. string_bytes text ≡ spec.port_of link.now) }
{
    if link.port == HTTP_PORT {
        return Ok(String::new(alloc));
    }
    let mut text = String::from_str(alloc, ":")?;
    let port = link.port.to_string(alloc)?;
    text.push_str(port.as_str())?;
    Ok(text)
}

#[tactic(auto, unfolding(crate::specs::Request::line_text))]
fn push_line(text: &mut ByteBuf, link: &Link, via: bool) -> Result<(), Memory>
    ensures { OnOk result (text.new ≡ text.old ++ spec.line_text link.now via) }
{
    push_three(text, b"GET ", target(link, via), b" HTTP/1.1\r\n")
}

#[tactic(auto, unfolding(crate::specs::Request::host_text))]
fn push_host(alloc: Global, text: &mut ByteBuf, link: &Link) -> Result<(), Memory>
    ensures { OnOk result (text.new ≡ text.old ++ spec.host_text link.now) }
{
    let port = port_text(alloc, link)?;
    push_three(
        text,
        b"Host: ",
        link.host.as_str().as_bytes(),
        port.as_bytes(),
    )
}

#[tactic(auto, unfolding(crate::specs::Request::wishes_text))]
fn push_wishes(text: &mut ByteBuf) -> Result<(), Memory>
    ensures { OnOk result (text.new ≡ text.old ++ spec.wishes_text) }
{
    text.extend(
        b"\r\nAccept: text/turtle, application/n-triples;q=0.9\r\nAccept-Encoding: identity\r\nConnection: close\r\n\r\n",
    )
}
