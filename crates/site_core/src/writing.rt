ghost use Rattle.std.specs.Prelude.{◌≡◌, ◌++◌, List, ℕ, codes, decimal, IfOk, OnOk, Some};
ghost use Rattle.std.specs.Option.{option_copied};
ghost use Rattle.site_core.specs.Text as spec;

use crate::site::Site;
use link_uri::Reply;
use rdf_terms::{ByteBuf, Memory, TextBuf};
use std::alloc::Global;

/// The one text of a site. It takes time by the number of its bytes.
pub fn write_site(alloc: Global, site: &Site) -> Result<ByteBuf, Memory>
    ensures { IfOk result (λ bytes. spec.SiteText site.now bytes) }
{
    let mut text = ByteBuf::new(alloc);
    push_line(&mut text, b"site 1")?;
    for entry in site.entries() {
        push_block(alloc, &mut text, entry)?;
    }
    push_line(&mut text, b"end")?;
    Ok(text)
}

fn push_line(text: &mut ByteBuf, line: &[u8]) -> Result<(), Memory>
    ensures { OnOk result (text.new ≡ text.old ++ spec.ended line.now) }
{
    text.extend(line)?;
    text.extend(b"\n")
}

fn push_block(alloc: Global, text: &mut ByteBuf, entry: &(TextBuf, Reply)) -> Result<(), Memory>
    ensures { OnOk result (text.new ≡ text.old ++ spec.block_text entry.now) }
{
    let reply = &entry.1;
    push_word(text, b"link ", entry.0.as_str().as_bytes())?;
    push_head(alloc, text, reply)?;
    push_body(alloc, text, reply.body.as_slice())
}

fn push_word(text: &mut ByteBuf, word: &[u8], value: &[u8]) -> Result<(), Memory>
    ensures { OnOk result (text.new ≡ text.old ++ spec.ended (word.now ++ value.now)) }
{
    text.extend(word)?;
    push_line(text, value)
}

fn push_head(alloc: Global, text: &mut ByteBuf, reply: &Reply) -> Result<(), Memory>
    ensures { OnOk result (text.new ≡ text.old ++ spec.head_text reply.now) }
{
    push_word(text, b"status ", reply.status.to_string(alloc)?.as_bytes())?;
    push_value(text, b"type ", &reply.media)?;
    push_value(text, b"coding ", &reply.coding)?;
    push_value(text, b"location ", &reply.location)
}

fn push_value(text: &mut ByteBuf, word: &[u8], value: &Option<ByteBuf>) -> Result<(), Memory>
    ensures { OnOk result (text.new ≡ text.old ++ spec.value_line word.now value.now) }
{
    match value {
        Some(value) => push_word(text, word, value.as_slice()),
        None => Ok(()),
    }
}

fn push_body(alloc: Global, text: &mut ByteBuf, body: &[u8]) -> Result<(), Memory>
    ensures { OnOk result (text.new ≡ text.old ++ spec.body_text body.now) }
{
    push_word(text, b"body ", body.len().to_string(alloc)?.as_bytes())?;
    push_line(text, body)
}
