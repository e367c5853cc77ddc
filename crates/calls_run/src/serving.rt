//! Tests of `site_core::serve`.
use site_core::{Site, read_site, serve};
use std::alloc::Global;
use std::process::Abort;

const ANN: &str =
    "site 1\nlink http://a.test/1\nstatus 200\ntype application/n-triples\nbody 50\n<http://a.test/1#me> <http://v.test/name> \"Ann\" .\n\nend\n";

const MOVED: &str =
    "site 1\nlink http://a.test/1\nstatus 301\ncoding gzip\nlocation /2#me\nbody 3\nabc\nend\n";

const ANN_SENT: &str =
    "HTTP/1.1 200 \r\nContent-Type: application/n-triples\r\nContent-Length: 50\r\nConnection: close\r\n\r\n<http://a.test/1#me> <http://v.test/name> \"Ann\" .\n";

const MOVED_SENT: &str =
    "HTTP/1.1 301 \r\nContent-Encoding: gzip\r\nLocation: /2#me\r\nContent-Length: 3\r\nConnection: close\r\n\r\nabc";

const BAD: &str = "HTTP/1.1 400 \r\nContent-Length: 0\r\nConnection: close\r\n\r\n";

const MISSING: &str = "HTTP/1.1 404 \r\nContent-Length: 0\r\nConnection: close\r\n\r\n";

const NOT_ALLOWED: &str =
    "HTTP/1.1 405 \r\nAllow: GET\r\nContent-Length: 0\r\nConnection: close\r\n\r\n";

// What is asked of the site of `ANN`, and the response.
const REQUESTS: [(&str, &str); 24] = [
    (
        "GET http://a.test/1 HTTP/1.1\r\nHost: a.test\r\n\r\n",
        ANN_SENT,
    ),
    ("GET /1 HTTP/1.1\r\nHost: a.test\r\n\r\n", ANN_SENT),
    ("\r\n\nGET /1 HTTP/1.0\nhOST:\ta.test \n\n", ANN_SENT),
    ("GET /1 HTTP/1.1\r\nHost: A.Test:80\r\n\r\nPOST", ANN_SENT),
    ("GET /x/../1#me HTTP/1.1\r\nHost: a.test\r\n\r\n", ANN_SENT),
    ("GET http://a.test/1 HTTP/1.1\r\nHost: \r\n\r\n", ANN_SENT),
    (
        "GET http://a.test/2 HTTP/1.1\r\nHost: a.test\r\n\r\n",
        MISSING,
    ),
    ("GET /1 HTTP/1.1\r\nHost: a.test:8080\r\n\r\n", MISSING),
    ("GET /1 HTTP/1.1\r\nHost: a.test/x\r\n\r\n", MISSING),
    (
        "POST http://a.test/1 HTTP/1.1\r\nHost: a.test\r\n\r\n",
        NOT_ALLOWED,
    ),
    (
        "get http://a.test/1 HTTP/1.1\r\nHost: a.test\r\n\r\n",
        NOT_ALLOWED,
    ),
    ("POST * HTTP/1.1\r\nHost: \r\n\r\n", NOT_ALLOWED),
    ("x", BAD),
    ("", BAD),
    ("GET /1 HTTP/1.1\r\nHost: a.test\r\n", BAD),
    ("GET /1 HTTP/2.0\r\nHost: a.test\r\n\r\n", BAD),
    ("GET http://a.test/1 HTTP/1.1\r\n\r\n", BAD),
    ("POST http://a.test/1 HTTP/1.1\r\n\r\n", BAD),
    (
        "GET http://a.test/1 HTTP/1.1\r\nHost: a.test\r\nHost: a.test\r\n\r\n",
        BAD,
    ),
    (
        "GET http://a.test/1 HTTP/1.1\r\nHost: a.test\r\nhost: b.test\r\n\r\n",
        BAD,
    ),
    ("GET * HTTP/1.1\r\nHost: a.test\r\n\r\n", BAD),
    ("GET HTTP://a.test/1 HTTP/1.1\r\nHost: a.test\r\n\r\n", BAD),
    ("GET /1 HTTP/1.1\r\nHost: u@a.test\r\n\r\n", BAD),
    ("GET /1 HTTP/1.1\r\nHost: \r\n\r\n", MISSING),
];

fn site(alloc: Global, rt: &impl Abort, text: &str) -> Site {
    read_site(alloc, text.as_bytes()).expect(rt, "a site")
}

fn is_served(alloc: Global, rt: &impl Abort, text: &str, request: &[u8], sent: &str) -> bool {
    let site = site(alloc, rt, text);
    serve(alloc, &site, request).expect(rt, "memory").as_slice() == sent.as_bytes()
}

#[test]
fn serves_a_reply_or_a_refusal(rt: HostRuntime) {
    for (request, sent) in REQUESTS {
        assert!(rt;
            is_served(rt.alloc(), &rt, ANN, request.as_bytes(), sent),
            "{request}"
        );
    }
}

#[test]
fn sends_each_field_of_a_reply(rt: HostRuntime) {
    let request = b"GET /1 HTTP/1.1\r\nHost: a.test\r\n\r\n";
    assert!(rt; is_served(rt.alloc(), &rt, MOVED, request, MOVED_SENT));
}

#[test]
fn takes_no_host_that_is_no_text(rt: HostRuntime) {
    let request = b"GET /1 HTTP/1.1\r\nHost: \xff\r\n\r\n";
    assert!(rt; is_served(rt.alloc(), &rt, ANN, request, BAD));
}

// A request with so many fields.
fn request_of(alloc: Global, rt: &impl Abort, fields: usize) -> String {
    let mut request = String::from_str(alloc, "GET /1 HTTP/1.1\r\nHost: a.test\r\n").expect(
        rt, "memory",
    );
    for _ in 1..fields {
        request.push_str("x: y\r\n").expect(rt, "memory");
    }
    request.push_str("\r\n").expect(rt, "memory");
    request
}

fn of_fields_is_served(alloc: Global, rt: &impl Abort, fields: usize, sent: &str) -> bool {
    let request = request_of(alloc, rt, fields);
    is_served(alloc, rt, ANN, request.as_bytes(), sent)
}

#[test]
fn takes_sixty_four_fields(rt: HostRuntime) {
    assert!(rt; of_fields_is_served(rt.alloc(), &rt, 64, ANN_SENT));
    assert!(rt; of_fields_is_served(rt.alloc(), &rt, 65, BAD));
}
