//! Feeds its input, an HTTP response, to a reading in pieces of so many bytes, so many times (words `feed PIECE TIMES`), or copies
//! it in such pieces (words `copy PIECE TIMES`): how many bytes came each time, and how many the body or the copy has.
ghost use Rattle.std.specs.Prelude.{◌<◌};

use crate::fault::Fault;
use crate::input;
use http_message::{Ended, Fed, Reading};
use link_uri::Heard;
use std::alloc::Global;
use std::io::Read;

const LIMIT: u64 = 1_073_741_824;

fn body_of(heard: &Heard) -> Result<usize, Fault> {
    match heard {
        Heard::Reply(reply) => Ok(reply.body.len()),
        _ => Err(Fault::Input),
    }
}

fn ended(reading: &mut Reading) -> Result<usize, Fault> {
    if reading.is_done() {
        return Err(Fault::Input);
    }
    match reading.end() {
        Ended::Done(heard) => body_of(&heard),
        Ended::Cut => Err(Fault::Input),
    }
}

fn feed(alloc: Global, bytes: &[u8], piece: usize) -> Result<usize, Fault>
    requires { 0 < piece }
{
    let mut reading = Reading::new(alloc, LIMIT);
    for part in bytes.chunks(piece) {
        if reading.is_done() {
            return Err(Fault::Input);
        }
        if let Fed::Done(heard) = reading.feed(part)? {
            return body_of(&heard);
        }
    }
    ended(&mut reading)
}

fn copy(alloc: Global, bytes: &[u8], piece: usize) -> Result<usize, Fault>
    requires { 0 < piece }
{
    let mut copy = Vec::new(alloc);
    for part in bytes.chunks(piece) {
        copy.extend_from_slice(part)?;
    }
    Ok(copy.len())
}

fn measured(alloc: Global, way: &str, bytes: &[u8], piece: usize) -> Result<usize, Fault> {
    match way {
        "feed" if 0 < piece => feed(alloc, bytes, piece),
        "copy" if 0 < piece => copy(alloc, bytes, piece),
        _ => Err(Fault::Words),
    }
}

fn number(word: &str) -> Result<usize, Fault> {
    match word.parse() {
        Ok(number) => Ok(number),
        Err(_) => Err(Fault::Words),
    }
}

pub(crate) fn answer<R: Read + Drop>(
    alloc: Global,
    words: &[String],
    input: R,
) -> Result<String, Fault> {
    let [way, piece, times] = words else {
        return Err(Fault::Words);
    };
    let piece = number(piece.as_str())?;
    let times = number(times.as_str())?;
    let bytes = input::bytes(alloc, input)?;
    let mut length = 0;
    for _ in 0..times {
        length = measured(alloc, way.as_str(), bytes.as_slice(), piece)?;
    }
    let count = bytes.len();
    Ok(format!(in alloc; "{count} {length}")?)
}
