ghost use Rattle.std.specs.Prelude.{◌≡◌, ℕ, List, IfOk, Option, Some, None, option_map};
ghost use Rattle.site_core.specs.Lines as spec;
ghost use Rattle.site_core.specs.Text.{Entry, comes_after};
ghost use Rattle.site_core.specs.declared.expected.Field.TheVariants.{Size};
ghost use Rattle.site_core.specs.declared.expected.Expected.TheVariants.{First, Between, Named};
ghost use Rattle.site_core.specs.Capped.{capped, capped_field, capped_number};
ghost use Rattle.std.specs.Cmp.Lexicographic.{slice_cmp};
ghost use Rattle.std.specs.Ordering.{nat_cmp, is_lt};

use crate::expected::{Expected, Field, Step};
use crate::fields::{behind, is_site_link, is_status, number_of, value_behind};
use link_uri::Reply;
use rdf_terms::{ByteBuf, Memory, TextBuf};
use std::alloc::Global;

/// What a line without its end does at a spot, behind these entries.
pub(crate) fn step(
    alloc: Global,
    entries: &[(TextBuf, Reply)],
    expected: Expected,
    line: &[u8],
) -> Result<Step, Memory>
    ensures { IfOk result (λ s. s ≡ capped (spec.step entries.now expected line.now)) }
{
    match expected {
        Expected::First => Ok(first(line)),
        Expected::Between => between(alloc, entries, line),
        Expected::Named(link) => Ok(named(alloc, link, line)),
        Expected::Headed(link, reply) => Ok(with_field(link, reply, field_of(alloc, line)?)),
    }
}

fn first(line: &[u8]) -> Step
    ensures { (done : List Entry) → result ≡ capped (spec.step done First line.now) }
{
    if line == b"site 1".as_slice() {
        Step::Next(Expected::Between)
    } else {
        Step::Misfit
    }
}

fn between(alloc: Global, entries: &[(TextBuf, Reply)], line: &[u8]) -> Result<Step, Memory>
    ensures { IfOk result (λ s. s ≡ capped (spec.step entries.now Between line.now)) }
{
    if line == b"end".as_slice() {
        return Ok(Step::Finished);
    }
    match behind(b"link ", line) {
        Some(text) => with_link(alloc, entries, text),
        None => Ok(Step::Misfit),
    }
}

fn with_link(alloc: Global, entries: &[(TextBuf, Reply)], text: &[u8]) -> Result<Step, Memory>
    ensures { IfOk result (λ s. s ≡ capped (spec.with_link entries.now (Some text.now))) }
{
    if !follows(entries, text) || !is_site_link(alloc, text)? {
        return Ok(Step::Misfit);
    }
    match str::from_utf8(text) {
        Ok(link) => Ok(Step::Next(Expected::Named(TextBuf::from_str(alloc, link)?))),
        Err(_) => Ok(Step::Misfit),
    }
}

// Whether a link text comes after the last of the entries.
pub(crate) fn follows(entries: &[(TextBuf, Reply)], text: &[u8]) -> bool
    ensures { result ≡ comes_after (spec.last_link None entries.now) text.now }
{
    match entries.last() {
        Some(last) => is_below(last.0.as_str().as_bytes(), text),
        None => true,
    }
}

fn is_below(before: &[u8], text: &[u8]) -> bool
    ensures { result ≡ is_lt (slice_cmp nat_cmp before.now text.now) }
{
    before.cmp(text).is_lt()
}

fn named(alloc: Global, link: TextBuf, line: &[u8]) -> Step
    ensures { (done : List Entry) → result ≡ capped (spec.step done (Named link) line.now) }
{
    match behind(b"status ", line) {
        Some(digits) => with_status(alloc, link, number_of(digits)),
        None => Step::Misfit,
    }
}

fn with_status(alloc: Global, link: TextBuf, number: Option<usize>) -> Step
    ensures { (exact : Option ℕ) → number ≡ option_map capped_number exact
        → result ≡ capped (spec.with_status link exact) }
{
    match number {
        Some(status) if is_status(status) => Step::Next(Expected::Headed(
            link,
            Reply {
                status: status as u16,
                media: None,
                coding: None,
                location: None,
                body: ByteBuf::new(alloc),
            },
        )),
        _ => Step::Misfit,
    }
}

fn field_of(alloc: Global, line: &[u8]) -> Result<Option<Field>, Memory>
    ensures { IfOk result (λ f. f ≡ option_map capped_field (spec.field_of line.now)) }
{
    if let Some(value) = value_behind(b"type ", line) {
        return Ok(Some(Field::Media(ByteBuf::from_slice(alloc, value)?)));
    }
    if let Some(value) = value_behind(b"coding ", line) {
        return Ok(Some(Field::Coding(ByteBuf::from_slice(alloc, value)?)));
    }
    if let Some(value) = value_behind(b"location ", line) {
        return Ok(Some(Field::Location(ByteBuf::from_slice(alloc, value)?)));
    }
    match behind(b"body ", line) {
        Some(digits) => Ok(size_of(number_of(digits))),
        None => Ok(None),
    }
}

fn size_of(number: Option<usize>) -> Option<Field>
    ensures { result ≡ option_map Size number }
{
    match number {
        Some(size) => Some(Field::Size(size)),
        None => None,
    }
}

// A field stands once, type before coding before location before the body.
fn with_field(link: TextBuf, mut reply: Reply, field: Option<Field>) -> Step
    ensures { result ≡ spec.with_field link reply field }
{
    match field {
        Some(Field::Media(value))
            if reply.media.is_none() && reply.coding.is_none() && reply.location.is_none() => {
            reply.media = Some(value);
            Step::Next(Expected::Headed(link, reply))
        }
        Some(Field::Coding(value)) if reply.coding.is_none() && reply.location.is_none() => {
            reply.coding = Some(value);
            Step::Next(Expected::Headed(link, reply))
        }
        Some(Field::Location(value)) if reply.location.is_none() => {
            reply.location = Some(value);
            Step::Next(Expected::Headed(link, reply))
        }
        Some(Field::Size(size)) => Step::Body(link, reply, size),
        _ => Step::Misfit,
    }
}
