ghost use Rattle.std.specs.Prelude.{◌≡◌, ◌++◌, IfOk, OnOk};
ghost use Rattle.site_core.specs.Serving as spec;

use link_uri::Reply;
use rdf_terms::{ByteBuf, Memory};
use std::alloc::Global;

fn push_line(text: &mut ByteBuf, line: &[u8]) -> Result<(), Memory>
    ensures { OnOk result (text.new ≡ text.old ++ spec.crlf_line line.now) }
{
    text.extend(line)?;
    text.extend(b"\r\n")
}

#[tactic(auto, unfolding(crate::specs::Serving::status_line))]
fn push_status(alloc: Global, text: &mut ByteBuf, status: u16) -> Result<(), Memory>
    ensures { OnOk result (text.new ≡ text.old ++ spec.status_line status) }
{
    text.extend(b"HTTP/1.1 ")?;
    text.extend(status.to_string(alloc)?.as_bytes())?;
    push_line(text, b" ")
}

fn push_field(text: &mut ByteBuf, name: &[u8], value: &[u8]) -> Result<(), Memory>
    ensures { OnOk result (text.new ≡ text.old ++ spec.field_line name.now value.now) }
{
    text.extend(name)?;
    text.extend(b": ")?;
    push_line(text, value)
}

#[tactic(auto, unfolding(crate::specs::Serving::line_of_field))]
fn push_field_if_any(text: &mut ByteBuf, name: &[u8], value: &Option<ByteBuf>) -> Result<(), Memory>
    ensures { OnOk result (text.new ≡ text.old ++ spec.line_of_field name.now value.now) }
{
    match value {
        Some(value) => push_field(text, name, value.as_slice()),
        None => Ok(()),
    }
}

#[tactic(auto, unfolding(crate::specs::Serving::last_lines))]
fn push_last_lines(alloc: Global, text: &mut ByteBuf, size: usize) -> Result<(), Memory>
    ensures { OnOk result (text.new ≡ text.old ++ spec.last_lines size) }
{
    push_field(text, b"Content-Length", size.to_string(alloc)?.as_bytes())?;
    push_field(text, b"Connection", b"close")?;
    push_line(text, b"")
}

#[tactic(auto, unfolding(crate::specs::Serving::reply_fields))]
fn push_fields(text: &mut ByteBuf, reply: &Reply) -> Result<(), Memory>
    ensures { OnOk result (text.new ≡ text.old ++ spec.reply_fields reply.now) }
{
    push_field_if_any(text, b"Content-Type", &reply.media)?;
    push_field_if_any(text, b"Content-Encoding", &reply.coding)?;
    push_field_if_any(text, b"Location", &reply.location)
}

fn push_head(alloc: Global, text: &mut ByteBuf, reply: &Reply) -> Result<(), Memory>
    ensures { OnOk result (text.new ≡ text.old ++ spec.reply_head reply.now) }
{
    push_status(alloc, text, reply.status)?;
    push_fields(text, reply)?;
    push_last_lines(alloc, text, reply.body.as_slice().len())
}

/// The response that sends a reply. It takes time by its number of bytes.
pub(crate) fn reply_text(alloc: Global, reply: &Reply) -> Result<ByteBuf, Memory>
    ensures { IfOk result (λ text. text ≡ spec.reply_text reply.now) }
{
    let mut text = ByteBuf::new(alloc);
    push_head(alloc, &mut text, reply)?;
    text.extend(reply.body.as_slice())?;
    Ok(text)
}

/// The response that refuses a request with this status.
pub(crate) fn refusal(alloc: Global, status: u16) -> Result<ByteBuf, Memory>
    ensures { IfOk result (λ text. text ≡ spec.refusal status) }
{
    let mut text = ByteBuf::new(alloc);
    push_status(alloc, &mut text, status)?;
    push_last_lines(alloc, &mut text, 0)?;
    Ok(text)
}

/// The response that refuses a method other than GET.
pub(crate) fn method_refusal(alloc: Global) -> Result<ByteBuf, Memory>
    ensures { IfOk result (λ text. text ≡ spec.method_refusal) }
{
    let mut text = ByteBuf::new(alloc);
    push_status(alloc, &mut text, 405)?;
    push_field(&mut text, b"Allow", b"GET")?;
    push_last_lines(alloc, &mut text, 0)?;
    Ok(text)
}
