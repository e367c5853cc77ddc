use crate::cases::{bytes, no_case};
use http_message::{Ended, Fed, Reading};
use link_uri::{Heard, Reply};
use rdf_terms::{ByteBuf, Memory};
use std::alloc::Global;

/// What a reading gives for each piece of a message, and at its end where nothing is decided before.
///
/// The fields are the limit, the bytes, and the places at which they are cut, each as `=` and a number.
pub fn answer(alloc: Global, line: &str) -> Result<String, Memory> {
    let mut pieces = line.split(' ');
    let limit = number(pieces.next());
    let text = match pieces.next() {
        Some(piece) => bytes(alloc, piece)?,
        None => None,
    };
    match (limit, text) {
        (Some(limit), Some(text)) => read(alloc, limit as u64, text.as_slice(), line),
        _ => no_case(alloc),
    }
}

fn number(piece: Option<&str>) -> Option<usize> {
    let digits = piece?.strip_prefix('=')?;
    digits.parse().ok()
}

// Feeds the bytes up to each place, and then the rest.
fn read(alloc: Global, limit: u64, text: &[u8], line: &str) -> Result<String, Memory> {
    let mut reading = Reading::new(alloc, limit);
    let mut told = String::new(alloc);
    let mut from = 0;
    for piece in line.split(' ').skip(2) {
        let to = number(Some(piece)).unwrap_or(text.len()).min(text.len());
        if let Some(piece) = text.get(from..to) {
            feed(alloc, &mut reading, piece, &mut told)?;
            from = to;
        }
    }
    feed(
        alloc,
        &mut reading,
        text.get(from..).unwrap_or(&[]),
        &mut told,
    )?;
    end(alloc, &mut reading, &mut told)?;
    Ok(told)
}

fn feed(
    alloc: Global,
    reading: &mut Reading,
    piece: &[u8],
    told: &mut String,
) -> Result<(), Memory> {
    if reading.is_done() {
        return Ok(());
    }
    match reading.feed(piece)? {
        Fed::More => told.push_str("more;")?,
        Fed::Done(heard) => tell(alloc, "done", &heard, told)?,
    }
    Ok(())
}

fn end(alloc: Global, reading: &mut Reading, told: &mut String) -> Result<(), Memory> {
    if reading.is_done() {
        return Ok(());
    }
    match reading.end() {
        Ended::Cut => told.push_str("cut")?,
        Ended::Done(heard) => tell(alloc, "end", &heard, told)?,
    }
    Ok(())
}

fn tell(alloc: Global, word: &str, heard: &Heard, told: &mut String) -> Result<(), Memory> {
    told.push_str(word)?;
    match heard {
        Heard::Reply(reply) => tell_reply(alloc, reply, told)?,
        Heard::Malformed => told.push_str(" malformed")?,
        Heard::TooLong => told.push_str(" toolong")?,
        Heard::Never => told.push_str(" never")?,
    }
    Ok(())
}

fn tell_reply(alloc: Global, reply: &Reply, told: &mut String) -> Result<(), Memory> {
    let status = reply.status.to_string(alloc)?;
    told.push_str(" ")?;
    told.push_str(status.as_str())?;
    tell_field(alloc, &reply.media, told)?;
    tell_field(alloc, &reply.coding, told)?;
    tell_field(alloc, &reply.location, told)?;
    tell_bytes(alloc, &reply.body, told)
}

fn tell_field(alloc: Global, field: &Option<ByteBuf>, told: &mut String) -> Result<(), Memory> {
    match field {
        Some(value) => tell_bytes(alloc, value, told)?,
        None => told.push_str(" none")?,
    }
    Ok(())
}

fn tell_bytes(alloc: Global, bytes: &ByteBuf, told: &mut String) -> Result<(), Memory> {
    let digits = hex::encode(alloc, bytes.as_slice())?;
    told.push_str(" x")?;
    told.push_str(digits.as_str())?;
    Ok(())
}
