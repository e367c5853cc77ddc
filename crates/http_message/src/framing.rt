ghost use Rattle.std.specs.Prelude.{◌≡◌, codes};
ghost use Rattle.http_header.specs.HeaderMap.{get_all};
ghost use Rattle.http_message.specs.Facts as spec;

use crate::lengths::stated_length;
use http_header::HeaderMap;

/// How the end of a body is found.
#[derive(Clone, Copy)]
pub enum Framing {
    /// In chunks, the last of which is empty.
    Chunked,
    /// After so many bytes.
    Sized(u64),
    /// Where the connection ends.
    UntilEnd,
    /// What the head says of it is malformed.
    Bad,
}

/// How the end of a body is found whose head has these fields.
pub fn framing_of(fields: &HeaderMap) -> Framing
    ensures { result ≡ spec.framing_of fields.now }
{
    let mut codings = fields.get_all("transfer-encoding").into_iter();
    match (codings.next(), codings.next()) {
        (None, _) => length_framing(fields),
        (Some(coding), None) => coded_framing(coding.as_bytes()),
        _ => Framing::Bad,
    }
}

fn coded_framing(coding: &[u8]) -> Framing
    ensures { result ≡ spec.framing_of_coding coding.now }
{
    if coding.eq_ignore_ascii_case(b"chunked") {
        Framing::Chunked
    } else {
        Framing::Bad
    }
}

fn length_framing(fields: &HeaderMap) -> Framing
    ensures { result ≡ spec.length_framing (get_all fields.now (codes "content-length")) }
{
    if fields.get("content-length").is_none() {
        return Framing::UntilEnd;
    }
    match stated_length(fields) {
        Some(length) => Framing::Sized(length),
        None => Framing::Bad,
    }
}
