//! The documents of generated sites.
ghost use Rattle.std.specs.Prelude.{◌≡◌, ◌<◌, ◌≤◌, ◌++◌, IfOk, OnOk};
ghost use Rattle.std.specs.List.{flat_map};
ghost use Rattle.site_core.specs.Generated as spec;

use link_uri::Reply;
use rdf_terms::{ByteBuf, Memory, TextBuf};
use std::alloc::Global;

/// The entry of the document behind the names that the others use.
pub(crate) fn vocabulary(alloc: Global) -> Result<(TextBuf, Reply), Memory>
    ensures { IfOk result (λ entry. entry ≡ spec.vocabulary) }
{
    let link = TextBuf::from_str(alloc, "http://self.test/v")?;
    let body = ByteBuf::from_slice(alloc, b"<#next> <#label> \"next\" .\n")?;
    Ok((link, document_reply(alloc, b"text/turtle", body)?))
}

/// The entry of document `i` of `n`.
pub(crate) fn document(alloc: Global, n: u64, step: u64, i: u64) -> Result<(TextBuf, Reply), Memory>
    requires below { i < n }
    requires few { n ≤ 2000 }
    ensures { IfOk result (λ entry. entry ≡ spec.document n step i) }
{
    let numbers = next_numbers(alloc, n, step, i)?;
    let reply = numbered_reply(alloc, i, numbers.as_slice())?;
    Ok((document_link(alloc, i)?, reply))
}

fn document_link(alloc: Global, i: u64) -> Result<TextBuf, Memory>
    ensures { IfOk result (λ link. link ≡ spec.document_link i) }
{
    let mut link = String::from_str(alloc, "http://self.test/d")?;
    link.push_str(i.to_string(alloc)?.as_str())?;
    TextBuf::from_string(link)
}

/// The numbers that document `i` of `n` names, in the order of its lines.
fn next_numbers(alloc: Global, n: u64, step: u64, i: u64) -> Result<Vec<u64>, Memory>
    requires below { i < n }
    requires few { n ≤ 2000 }
    ensures { IfOk result (λ numbers. numbers.items ≡ spec.next_numbers n step i) }
{
    let mut numbers = Vec::new(alloc);
    push_below(&mut numbers, n, 2 * i + 1)?;
    push_below(&mut numbers, n, 2 * i + 2)?;
    numbers.push((i * (step % n) + 1) % n)?;
    Ok(numbers)
}

fn push_below(numbers: &mut Vec<u64>, n: u64, j: u64) -> Result<(), Memory>
    ensures { OnOk result (numbers.new.items ≡ numbers.old.items ++ spec.below n j) }
{
    if j < n {
        numbers.push(j)?;
    }
    Ok(())
}

fn numbered_reply(alloc: Global, i: u64, numbers: &[u64]) -> Result<Reply, Memory>
    ensures { IfOk result (λ reply. reply ≡ spec.numbered_reply i numbers.now) }
{
    if i % 2 == 0 {
        let body = ntriples_text(alloc, i, numbers)?;
        document_reply(alloc, b"application/n-triples", body)
    } else {
        let body = turtle_text(alloc, i, numbers)?;
        document_reply(alloc, b"text/turtle", body)
    }
}

fn document_reply(alloc: Global, media: &[u8], body: ByteBuf) -> Result<Reply, Memory>
    ensures { IfOk result (λ reply. reply ≡ spec.document_reply media.now body) }
{
    let media = ByteBuf::from_slice(alloc, media)?;
    Ok(Reply {
        status: 200,
        media: Some(media),
        coding: None,
        location: None,
        body,
    })
}

fn ntriples_text(alloc: Global, i: u64, numbers: &[u64]) -> Result<ByteBuf, Memory>
    ensures { IfOk result (λ text. text ≡ spec.ntriples_text i numbers.now) }
{
    let mut text = ByteBuf::new(alloc);
    for j in numbers {
        push_next_triple(alloc, &mut text, i, *j)?;
    }
    push_mark_triple(alloc, &mut text, i)?;
    Ok(text)
}

fn push_next_triple(alloc: Global, text: &mut ByteBuf, i: u64, j: u64) -> Result<(), Memory>
    ensures { OnOk result (text.new ≡ text.old ++ spec.next_triple i j) }
{
    let next = b"#it> <http://self.test/v#next> ";
    push_between(alloc, text, b"<http://self.test/d", i, next)?;
    push_between(alloc, text, b"<http://self.test/d", j, b"#it> .\n")
}

fn push_mark_triple(alloc: Global, text: &mut ByteBuf, i: u64) -> Result<(), Memory>
    ensures { OnOk result (text.new ≡ text.old ++ spec.mark_triple i) }
{
    let mark = b"#it> <http://self.test/v#mark> ";
    let datatype = b"\"^^<http://www.w3.org/2001/XMLSchema#integer> .\n";
    push_between(alloc, text, b"<http://self.test/d", i, mark)?;
    push_between(alloc, text, b"\"", i, datatype)
}

fn turtle_text(alloc: Global, i: u64, numbers: &[u64]) -> Result<ByteBuf, Memory>
    ensures { IfOk result (λ text. text ≡ spec.turtle_text i numbers.now) }
{
    let mut text = ByteBuf::new(alloc);
    text.extend(b"@prefix v: <http://self.test/v#> .\n")?;
    for j in numbers {
        push_next_line(alloc, &mut text, *j)?;
    }
    push_mark_line(alloc, &mut text, i)?;
    Ok(text)
}

fn push_next_line(alloc: Global, text: &mut ByteBuf, j: u64) -> Result<(), Memory>
    ensures { OnOk result (text.new ≡ text.old ++ spec.next_line j) }
{
    push_between(alloc, text, b"<#it> v:next <d", j, b"#it> .\n")
}

fn push_mark_line(alloc: Global, text: &mut ByteBuf, i: u64) -> Result<(), Memory>
    ensures { OnOk result (text.new ≡ text.old ++ spec.mark_line i) }
{
    push_between(alloc, text, b"<#it> v:mark ", i, b" .\n")
}

#[tactic(auto, unfolding(crate::specs::Generated::between))]
fn push_between(
    alloc: Global,
    text: &mut ByteBuf,
    front: &[u8],
    number: u64,
    back: &[u8],
) -> Result<(), Memory>
    ensures { OnOk result (text.new ≡ text.old ++ spec.between front.now number back.now) }
{
    text.extend(front)?;
    text.extend(number.to_string(alloc)?.as_bytes())?;
    text.extend(back)
}
