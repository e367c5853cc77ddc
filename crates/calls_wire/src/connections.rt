//! Calls of `serve_one`.
use crate::cases::{AMPLE, REQUEST, RESPONSE, SITE, connection};
use doc_server::{MemoryConn, Served, serve_one};
use site_core::{Site, read_site};
use std::alloc::Global;
use std::process::Abort;

fn site(alloc: Global, rt: &impl Abort) -> Site {
    read_site(alloc, SITE.as_bytes()).expect(rt, "a site")
}

fn stands(conn: &MemoryConn, text: &str) -> bool {
    conn.sink.content() == text.as_bytes()
}

// Whether a connection that holds these bytes is answered so.
fn is_answered(alloc: Global, rt: &impl Abort, held: &str, response: &str) -> bool {
    let site = site(alloc, rt);
    let mut conn = connection(alloc, rt, held, AMPLE, &[]);
    serve_one(alloc, &site, &mut conn) == Served::Done && stands(&conn, response)
}

#[test]
fn a_request_gets_its_response(rt: HostRuntime) {
    let alloc = rt.alloc();
    assert!(rt; is_answered(alloc, &rt, REQUEST, RESPONSE));
    assert!(rt;
        is_answered(
            alloc,
            &rt,
            "\r\n\nGET /1 HTTP/1.0\nHost: a.test\n\nmore\n\n",
            RESPONSE
        )
    );
}

const NOT_FOUND: &str = "HTTP/1.1 404 \r\nContent-Length: 0\r\nConnection: close\r\n\r\n";

const NOT_ALLOWED: &str =
    "HTTP/1.1 405 \r\nAllow: GET\r\nContent-Length: 0\r\nConnection: close\r\n\r\n";

const BAD: &str = "HTTP/1.1 400 \r\nContent-Length: 0\r\nConnection: close\r\n\r\n";

#[test]
fn other_requests_are_refused(rt: HostRuntime) {
    let alloc = rt.alloc();
    assert!(rt;
        is_answered(
            alloc,
            &rt,
            "GET http://a.test/2 HTTP/1.1\r\nHost: a.test\r\n\r\n",
            NOT_FOUND
        )
    );
    assert!(rt;
        is_answered(
            alloc,
            &rt,
            "POST http://a.test/1 HTTP/1.1\r\nHost: a.test\r\n\r\n",
            NOT_ALLOWED
        )
    );
    assert!(rt; is_answered(alloc, &rt, "x", BAD));
    assert!(rt; is_answered(alloc, &rt, "", BAD));
}

// Whether a connection of so much room, whose numbered reads fail, is answered so.
fn fails(
    alloc: Global,
    rt: &impl Abort,
    room: u64,
    fail: &[u64],
    served: Served,
    written: &str,
) -> bool {
    let site = site(alloc, rt);
    let mut conn = connection(alloc, rt, REQUEST, room, fail);
    serve_one(alloc, &site, &mut conn) == served && stands(&conn, written)
}

#[test]
fn a_fault_is_told(rt: HostRuntime) {
    let alloc = rt.alloc();
    assert!(rt; fails(alloc, &rt, AMPLE, &[2], Served::ReadFault, ""));
    assert!(rt; fails(alloc, &rt, 8, &[], Served::WriteFault, "HTTP/1.1"));
    // A read behind the head's end is never made.
    assert!(rt; fails(alloc, &rt, AMPLE, &[7], Served::Done, RESPONSE));
}
