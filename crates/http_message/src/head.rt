ghost use Rattle.std.specs.Prelude.{◌≡◌, ◌≤◌, length, IfOk, IfSome, IsSome};
ghost use Rattle.httparse.specs.Grammar.{ResponseHead, status_code};
ghost use Rattle.httparse.specs.Spans.{IsResponseAt, IsResponseWithin};
ghost use Rattle.http_message.specs.Heads.{max_fields, IsHead, fields_of};
ghost use Rattle.http_message.specs.Reading.{head_limit};

use crate::fields::field_map;
use http_header::HeaderMap;
use httparse::Status;
use httparse::spans::{EMPTY_HEADER_SPAN, HeaderSpan, ResponseSpans, parse_response};
use rdf_terms::Memory;
use std::alloc::Global;

/// The most fields of a head.
const MAX_FIELDS: usize = 128;

/// What a head says.
#[derive(Drop)]
pub struct Head {
    pub status: u16,
    pub fields: HeaderMap,
}

// The parts of a head that is the whole buffer, or none where the buffer is no such head.
fn parse_whole(buf: &[u8], headers: &mut [HeaderSpan]) -> Option<ResponseSpans>
    requires { length headers.old ≡ max_fields }
    ensures within { IfSome result (IsResponseWithin buf.now headers.new) }
    ensures known { IfSome result (λ r. (h : ResponseHead) × IsHead buf.now h × IsResponseAt buf.now headers.new r h) }
    ensures found { (h : ResponseHead) → IsHead buf.now h → IsSome result }
{
    match parse_response(buf, headers) {
        Ok(Status::Complete(head)) => {
            if head.len == buf.len() {
                Some(head)
            } else {
                None
            }
        }
        _ => None,
    }
}

/// What a whole head says, or none where the bytes are no response head.
pub fn read_head(alloc: Global, buf: &[u8]) -> Result<Option<Head>, Memory>
    requires { length buf.now ≤ head_limit }
    ensures known { IfOk result (λ o. IfSome o (λ d. (h : ResponseHead) × IsHead buf.now h
        × (d.status ≡ status_code h) × (d.fields ≡ fields_of h.fields))) }
    ensures found { (h : ResponseHead) → IsHead buf.now h → IfOk result IsSome }
{
    let mut headers = [EMPTY_HEADER_SPAN; MAX_FIELDS];
    match parse_whole(buf, &mut headers) {
        Some(spans) => {
            let fields = field_map(alloc, buf, &headers[..spans.headers])?;
            Ok(Some(Head {
                status: spans.code,
                fields,
            }))
        }
        None => Ok(None),
    }
}
