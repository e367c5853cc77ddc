//! Calls of `http_message`.
use http_message::{Ended, Fed, Reading, request_bytes};
use link_uri::{Heard, Link, link_of};
use std::alloc::Global;
use std::process::Abort;

fn link(alloc: Global, rt: &impl Abort, text: &str) -> Link {
    link_of(alloc, text)
        .expect(rt, "memory")
        .expect(rt, "a link")
}

fn is_asked(alloc: Global, rt: &impl Abort, text: &str, via: bool, request: &[u8]) -> bool {
    let link = link(alloc, rt, text);
    request_bytes(alloc, &link, via)
        .expect(rt, "memory")
        .as_slice()
        == request
}

const OF_ITS_SERVER: &[u8] =
    b"GET /x?y HTTP/1.1\r\nHost: a.test:8080\r\nAccept: text/turtle, application/n-triples;q=0.9\r\nAccept-Encoding: identity\r\nConnection: close\r\n\r\n";

const OF_A_PROXY: &[u8] =
    b"GET http://a.test/x HTTP/1.1\r\nHost: a.test\r\nAccept: text/turtle, application/n-triples;q=0.9\r\nAccept-Encoding: identity\r\nConnection: close\r\n\r\n";

#[test]
fn asks_a_server_or_a_proxy(rt: HostRuntime) {
    let alloc = rt.alloc();
    assert!(rt; is_asked(alloc, &rt, "http://a.test:8080/x?y#z", false, OF_ITS_SERVER));
    assert!(rt; is_asked(alloc, &rt, "http://a.test/x", true, OF_A_PROXY));
}

// What is heard once the pieces have come and the input ends; `None` where the message is cut.
fn heard(alloc: Global, rt: &impl Abort, limit: u64, pieces: &[&[u8]]) -> Option<Heard> {
    let mut reading = Reading::new(alloc, limit);
    for piece in pieces {
        if reading.is_done() {
            return None;
        }
        if let Fed::Done(heard) = reading.feed(piece).expect(rt, "memory") {
            return Some(heard);
        }
    }
    if reading.is_done() {
        return None;
    }
    match reading.end() {
        Ended::Done(heard) => Some(heard),
        Ended::Cut => None,
    }
}

fn has_body(heard: &Option<Heard>, body: &[u8]) -> bool {
    match heard {
        Some(Heard::Reply(reply)) => reply.body.as_slice() == body,
        _ => false,
    }
}

const CHUNKED: &[u8] =
    b"HTTP/1.1 200 OK\r\nContent-Type: text/turtle\r\nTransfer-Encoding: chunked\r\n\r\n4\r\n<a> \r\n8\r\n<b> <c>.\r\n0\r\n\r\n";

// Cut in two at this place.
fn is_read_in_two(alloc: Global, rt: &impl Abort, at: usize) -> bool {
    let (front, back) = CHUNKED.split_at(at.min(CHUNKED.len()));
    let heard = heard(alloc, rt, 1000, &[front, back]);
    has_body(&heard, b"<a> <b> <c>.")
}

#[test]
fn reads_chunks_in_every_cut(rt: HostRuntime) {
    for at in 0..CHUNKED.len() {
        assert!(rt; is_read_in_two(rt.alloc(), &rt, at));
    }
}

fn is_read(alloc: Global, rt: &impl Abort, message: &[u8], body: &[u8]) -> bool {
    let heard = heard(alloc, rt, 1000, &[message]);
    has_body(&heard, body)
}

const CONTINUED: &[u8] =
    b"HTTP/1.1 100 Continue\r\n\r\nHTTP/1.1 200 OK\r\nContent-Type: text/turtle\r\n\r\n<a> <b> <c>.";

const CODED: &[u8] =
    b"HTTP/1.1 200 OK\r\nContent-Type: text/turtle\r\nContent-Encoding: gzip\r\n\r\n<a>";

#[test]
fn reads_up_to_the_end_and_nothing_behind_an_unwanted_head(rt: HostRuntime) {
    let alloc = rt.alloc();
    assert!(rt; is_read(alloc, &rt, CONTINUED, b"<a> <b> <c>."));
    assert!(rt; is_read(alloc, &rt, CODED, b""));
}

const LISTED: &[u8] =
    b"HTTP/1.1 200 OK\r\nContent-Type: text/turtle\r\nContent-Length: 5, 5\r\n\r\n<a> <b>";

const TRAILED: &[u8] =
    b"HTTP/1.1 200 OK\r\nContent-Type: text/turtle\r\nTransfer-Encoding: chunked\r\n\r\n3 ;x=y\r\n<a>\r\n0\r\nX: y\n\n";

#[test]
fn reads_a_list_of_equal_lengths_and_ignores_trailers(rt: HostRuntime) {
    let alloc = rt.alloc();
    assert!(rt; is_read(alloc, &rt, LISTED, b"<a> <"));
    assert!(rt; is_read(alloc, &rt, TRAILED, b"<a>"));
}

const MOVED: &[u8] = b"HTTP/1.1 303 See Other\r\nLocation:  /x \r\nLocation: /y\r\n\r\n";

fn has_location(heard: &Option<Heard>, location: &[u8]) -> bool {
    match heard {
        Some(Heard::Reply(reply)) => match &reply.location {
            Some(found) => reply.status == 303 && found.as_slice() == location,
            None => false,
        },
        _ => false,
    }
}

fn is_moved(alloc: Global, rt: &impl Abort) -> bool {
    let heard = heard(alloc, rt, 1000, &[MOVED]);
    has_location(&heard, b"/x")
}

#[test]
fn takes_the_first_location(rt: HostRuntime) {
    assert!(rt; is_moved(rt.alloc(), &rt));
}

const FRONT: &[u8] = b"HTTP/1.1 200 OK\r\nX: ";

const BACK: &[u8] = b"\r\nContent-Type: text/turtle\r\nContent-Length: 0\r\n\r\n";

// A head of so many bytes.
fn long_head(alloc: Global, rt: &impl Abort, len: usize) -> Vec<u8> {
    let mut head = Vec::from_slice(alloc, FRONT).expect(rt, "memory");
    for _ in 0..len.saturating_sub(FRONT.len()).saturating_sub(BACK.len()) {
        head.push(b'a').expect(rt, "memory");
    }
    head.extend_from_slice(BACK).expect(rt, "memory");
    head
}

fn long_head_is_read(alloc: Global, rt: &impl Abort, len: usize) -> bool {
    let head = long_head(alloc, rt, len);
    is_read(alloc, rt, head.as_slice(), b"")
}

fn long_head_is_malformed(alloc: Global, rt: &impl Abort, len: usize) -> bool {
    let head = long_head(alloc, rt, len);
    is_malformed(alloc, rt, head.as_slice())
}

#[test]
fn reads_a_head_of_65536_bytes_and_none_that_is_longer(rt: HostRuntime) {
    let alloc = rt.alloc();
    assert!(rt; long_head_is_read(alloc, &rt, 65_536));
    assert!(rt; long_head_is_malformed(alloc, &rt, 65_537));
}

const CUT: &[u8] =
    b"HTTP/1.1 200 OK\r\nContent-Type: text/turtle\r\nContent-Length: 12\r\n\r\n<a> <b> <c>";

const TWO_LENGTHS: &[u8] =
    b"HTTP/1.1 200 OK\r\nContent-Type: text/turtle\r\nContent-Length: 12\r\nContent-Length: 13\r\n\r\n<a> <b> <c>.";

fn is_cut(alloc: Global, rt: &impl Abort) -> bool {
    heard(alloc, rt, 1000, &[CUT]).is_none()
}

const TWO_CODINGS: &[u8] =
    b"HTTP/1.1 200 OK\r\nContent-Type: text/turtle\r\nTransfer-Encoding: gzip, chunked\r\n\r\n";

fn is_malformed(alloc: Global, rt: &impl Abort, message: &[u8]) -> bool {
    let heard = heard(alloc, rt, 1000, &[message]);
    matches!(&heard, Some(Heard::Malformed))
}

fn is_too_long(alloc: Global, rt: &impl Abort, message: &[u8]) -> bool {
    let heard = heard(alloc, rt, 11, &[message]);
    matches!(&heard, Some(Heard::TooLong))
}

#[test]
fn refuses_what_is_cut_contradictory_or_long(rt: HostRuntime) {
    let alloc = rt.alloc();
    assert!(rt; is_cut(alloc, &rt));
    assert!(rt; is_malformed(alloc, &rt, TWO_LENGTHS));
    assert!(rt; is_malformed(alloc, &rt, TWO_CODINGS));
    assert!(rt; is_malformed(alloc, &rt, b"HTTP/1.1 2x0 OK\r\n\r\n"));
    assert!(rt; is_too_long(alloc, &rt, CHUNKED));
    assert!(rt; is_too_long(alloc, &rt, CONTINUED));
}
