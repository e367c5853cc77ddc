ghost use Rattle.std.specs.Prelude.{◌≡◌, ◌≤◌, ◌<◌, ◌^◌, ℕ, List, take, drop, length, position, IfOk, Err, ◌==◌, ◌⊎◌, if◌then◌else◌};
ghost use Rattle.site_core.specs.Fields.{is_lf};
ghost use Rattle.site_core.specs.Endings.{EndsSo, Finds, HasBody};
ghost use Rattle.site_core.specs.Places.{BeyondAt, SiteBad};
ghost use Rattle.site_core.specs.declared.reading.Found.TheVariants.{Last, Fault};
ghost use Rattle.site_core.specs.Text.{SiteText, site_limit};

use crate::expected::{Expected, Step};
use crate::fault::SiteFault;
use crate::site::Site;
use crate::steps::step;
use crate::viable::is_viable_prefix;
use link_uri::Reply;
use rdf_terms::{ByteBuf, Memory, TextBuf};
use std::alloc::Global;

/// The most bytes that a site file has.
pub const SITE_LIMIT: usize = 67_108_864;

/// Where the reading of some bytes ended.
#[derive(Drop)]
enum Ending {
    /// The bytes are a site text, but for their number.
    Whole(Vec<(TextBuf, Reply)>),
    /// A fault, whatever follows the bytes.
    Fault(usize),
    /// The bytes end within a line.
    Unended(OpenLine),
    /// The body of the `body` line at this place has too few bytes.
    Cut(usize),
}

/// A line without an end, and what stands before it.
#[derive(Drop)]
struct OpenLine {
    entries: Vec<(TextBuf, Reply)>,
    expected: Expected,
    at: usize,
}

/// What is found at one line.
#[derive(Drop)]
enum Found {
    /// An allowed line, with its body where it has one. This may stand next, from this place on.
    Line(Expected, usize),
    /// The last line, and nothing behind it.
    Last,
    Fault(usize),
    Unended(Expected),
    Cut,
}

/// Reads a site file. It takes time by the number of bytes, and copies each body once.
pub fn read_site(alloc: Global, bytes: &[u8]) -> Result<Site, SiteFault>
    ensures site { IfOk result (λ site. SiteText site bytes.now) }
    ensures bad { (at : ℕ) → result ≡ Err (SiteFault.Bad at) → SiteBad bytes.now at }
{
    if bytes.len() > SITE_LIMIT {
        let at = fault_beyond(alloc, front(bytes, SITE_LIMIT))?;
        return Err(SiteFault::Bad { at });
    }
    match read_lines(alloc, bytes)? {
        Ending::Whole(entries) => Ok(Site { entries }),
        Ending::Fault(at) => Err(SiteFault::Bad { at }),
        Ending::Unended(line) => Err(SiteFault::Bad { at: place_of(line) }),
        Ending::Cut(at) => Err(SiteFault::Bad { at }),
    }
}

// The place of the fault in a file that goes on behind these first bytes.
fn fault_beyond(alloc: Global, front: &[u8]) -> Result<usize, Memory>
    requires { length front.now ≡ site_limit }
    ensures { IfOk result (BeyondAt front.now) }
{
    match read_lines(alloc, front)? {
        Ending::Fault(at) => Ok(at),
        Ending::Unended(line) => fault_at_open_line(alloc, line, front),
        Ending::Whole(_) => Ok(front.len()),
        Ending::Cut(_) => Ok(front.len()),
    }
}

fn fault_at_open_line(alloc: Global, line: OpenLine, front: &[u8]) -> Result<usize, Memory>
    requires full { length front.now ≡ site_limit }
    requires ends { EndsSo front.now (Ending.Unended line) }
    ensures { IfOk result (BeyondAt front.now) }
{
    let part = tail(front, line.at);
    let grows = is_viable_prefix(alloc, line.entries.as_slice(), &line.expected, part)?;
    let at = place_of(line);
    Ok(if grows { front.len() } else { at })
}

fn place_of(line: OpenLine) -> usize
    ensures { result ≡ line.at }
{
    line.at
}

// The bytes from a place on.
fn tail(bytes: &[u8], at: usize) -> &[u8]
    requires { at ≤ length bytes.now }
    ensures { result.now ≡ drop at bytes.now }
{
    &bytes[at..]
}

// The first bytes.
fn front(bytes: &[u8], count: usize) -> &[u8]
    requires { count ≤ length bytes.now }
    ensures { result.now ≡ take count bytes.now }
{
    &bytes[..count]
}

fn read_lines(alloc: Global, bytes: &[u8]) -> Result<Ending, Memory>
    ensures { IfOk result (EndsSo bytes.now) }
{
    let mut entries = Vec::new(alloc);
    let mut expected = Expected::First;
    let mut at = 0;
    loop {
        match read_line(alloc, &mut entries, expected, at, bytes)? {
            Found::Line(next_spot, next) => {
                expected = next_spot;
                at = next;
            }
            Found::Last => return Ok(Ending::Whole(entries)),
            Found::Fault(place) => return Ok(Ending::Fault(place)),
            Found::Unended(expected) => return Ok(Ending::Unended(OpenLine {
                entries,
                expected,
                at,
            })),
            Found::Cut => return Ok(Ending::Cut(at)),
        }
    }
}

fn read_line(
    alloc: Global,
    entries: &mut Vec<(TextBuf, Reply)>,
    expected: Expected,
    at: usize,
    bytes: &[u8],
) -> Result<Found, Memory>
    requires { at ≤ length bytes.now }
    ensures { IfOk result (Finds entries.old.items expected at bytes.now entries.new.items) }
{
    let rest = tail(bytes, at);
    let Some(length) = line_length(rest) else {
        return Ok(Found::Unended(expected));
    };
    let next = at + length + 1;
    match step(alloc, entries.as_slice(), expected, front(rest, length))? {
        Step::Misfit => Ok(Found::Fault(at)),
        Step::Next(expected) => Ok(Found::Line(expected, next)),
        Step::Finished => Ok(last(next, bytes.len())),
        Step::Body(link, reply, size) => match read_body(alloc, tail(bytes, next), size)? {
            Body::Whole(body) => {
                entries.push((link, with_body(reply, body)))?;
                Ok(Found::Line(Expected::Between, next + size + 1))
            }
            Body::Misfit => Ok(Found::Fault(at)),
            Body::Short => Ok(Found::Cut),
        },
    }
}

/// What stands behind a `body` line.
#[derive(Drop)]
enum Body {
    /// A body with its line's end.
    Whole(ByteBuf),
    /// Enough bytes, and no line's end behind them.
    Misfit,
    Short,
}

fn read_body(alloc: Global, rest: &[u8], size: usize) -> Result<Body, Memory>
    ensures found { IfOk result (HasBody rest.now size) }
    ensures small { length rest.now < 2 ^ 64 }
{
    if rest.len() <= size {
        return Ok(Body::Short);
    }
    if rest[size] != b'\n' {
        return Ok(Body::Misfit);
    }
    Ok(Body::Whole(ByteBuf::from_slice(alloc, front(rest, size))?))
}

fn with_body(reply: Reply, body: ByteBuf) -> Reply
    ensures { result ≡ record reply { body = body } }
{
    Reply {
        status: reply.status,
        media: reply.media,
        coding: reply.coding,
        location: reply.location,
        body,
    }
}

// Behind the last line nothing may stand.
fn last(next: usize, length: usize) -> Found
    ensures { result ≡ (if next == length then Last else Fault next) }
{
    if next == length {
        Found::Last
    } else {
        Found::Fault(next)
    }
}

fn line_length(rest: &[u8]) -> Option<usize>
    ensures { result ≡ position is_lf rest.now }
{
    rest.iter().position(|byte| *byte == b'\n')
}
