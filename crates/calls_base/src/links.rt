//! Calls of `link_uri`.
use link_uri::{Heard, Link, Reply, Scheme, is_same_link, join, link_of, wanted};
use rdf_terms::ByteBuf;
use std::alloc::Global;
use std::process::Abort;

fn link(alloc: Global, rt: &impl Abort, text: &str) -> Link {
    link_of(alloc, text)
        .expect(rt, "memory")
        .expect(rt, "a link")
}

// Whether the link has this text; no link is written as no text.
fn has_text(link: &Option<Link>, text: &str) -> bool {
    match link {
        Some(link) => link.text.as_str() == text,
        None => text.is_empty(),
    }
}

fn gives(alloc: Global, rt: &impl Abort, text: &str, expected: &str) -> bool {
    let link = link_of(alloc, text).expect(rt, "memory");
    has_text(&link, expected)
}

// The second text is the link's, and empty where there is none.
const LINKS: [(&str, &str); 9] = [
    ("HTTP://A.Test:80/x/../y#z", "http://a.test/y"),
    ("https://a.test:80", "https://a.test:80/"),
    ("http://a.test/?q#", "http://a.test/?q"),
    ("mailto:a@a.test", ""),
    ("ftp://a.test/", ""),
    ("http://u@a.test/", ""),
    ("http://:p@a.test/", ""),
    ("http://", ""),
    ("/x", ""),
];

#[test]
fn a_text_has_one_link_or_none(rt: HostRuntime) {
    for (text, expected) in LINKS {
        assert!(rt; gives(rt.alloc(), &rt, text, expected), "{text}");
    }
}

fn has_parts(link: &Link) -> bool {
    link.scheme == Scheme::Https
        && link.host.as_str() == "a.test"
        && link.port == 443
        && link.target.as_str() == "/x?q"
}

fn is_copied(rt: &impl Abort, link: &Link) -> bool {
    let copy = link.copy().expect(rt, "memory");
    is_same_link(&copy, link)
}

#[test]
fn a_link_has_the_parts_of_its_url(rt: HostRuntime) {
    let link = link(rt.alloc(), &rt, "HTTPS://A.Test/x?q#z");
    assert!(rt; has_parts(&link));
    assert!(rt; is_copied(&rt, &link));
}

fn leads_to(alloc: Global, rt: &impl Abort, base: &Link, location: &str, expected: &str) -> bool {
    let link = join(alloc, base, location).expect(rt, "memory");
    has_text(&link, expected)
}

// Read against http://a.test/x/y?q; after RFC 3986, section 5.4.
const JOINS: [(&str, &str); 9] = [
    ("g", "http://a.test/x/g"),
    ("../g", "http://a.test/g"),
    ("../../g", "http://a.test/g"),
    ("/g", "http://a.test/g"),
    ("?p", "http://a.test/x/y?p"),
    ("", "http://a.test/x/y?q"),
    ("//b.test:81/g#s", "http://b.test:81/g"),
    ("//u@b.test/", ""),
    ("urn:g", ""),
];

#[test]
fn a_location_is_read_against_its_base(rt: HostRuntime) {
    let base = link(rt.alloc(), &rt, "http://a.test/x/y?q");
    for (location, expected) in JOINS {
        assert!(rt;
            leads_to(rt.alloc(), &rt, &base, location, expected),
            "{location}"
        );
    }
}

fn bytes(alloc: Global, rt: &impl Abort, of: &str) -> ByteBuf {
    ByteBuf::from_slice(alloc, of.as_bytes()).expect(rt, "memory")
}

// The field of this value; an empty one is left out.
fn field(alloc: Global, rt: &impl Abort, value: &str) -> Option<ByteBuf> {
    match value {
        "" => None,
        _ => Some(bytes(alloc, rt, value)),
    }
}

fn head(alloc: Global, rt: &impl Abort, status: u16, media: &str, coding: &str) -> Reply {
    let media = field(alloc, rt, media);
    let coding = field(alloc, rt, coding);
    let body = ByteBuf::new(alloc);
    Reply {
        status,
        media,
        coding,
        location: None,
        body,
    }
}

// What the copy of the answer says of itself, where it is an answer too.
fn copy_is_wanted(rt: &impl Abort, heard: &Heard) -> Option<bool> {
    match heard.copy().expect(rt, "memory") {
        Heard::Reply(copy) => Some(wanted(&copy)),
        _ => None,
    }
}

fn is_wanted_twice(rt: &impl Abort, reply: Reply, expected: bool) -> bool {
    let first = wanted(&reply);
    let heard = Heard::Reply(reply);
    first == expected && copy_is_wanted(rt, &heard) == Some(expected)
}

// Status, media type and coding, which are left out where they are empty.
const HEADS: [(u16, &str, &str, bool); 10] = [
    (200, "text/turtle", "", true),
    (200, "Text/Turtle ;charset=utf-8", "Identity", true),
    (200, " application/n-triples\t; a; b", "", true),
    (200, "application/n-triplesx", "", false),
    (200, "text/turtle, text/html", "", false),
    (200, ";text/turtle", "", false),
    (200, "", "", false),
    (200, "text/turtle", "identity, gzip", false),
    (200, "text/turtle", "gzip", false),
    (404, "text/turtle", "", false),
];

#[test]
fn a_head_is_wanted_by_status_coding_and_media(rt: HostRuntime) {
    for (status, media, coding, expected) in HEADS {
        let reply = head(rt.alloc(), &rt, status, media, coding);
        assert!(rt; is_wanted_twice(&rt, reply, expected), "{media}");
    }
}

fn moved(alloc: Global, rt: &impl Abort) -> Reply {
    let media = field(alloc, rt, "text/html");
    let location = field(alloc, rt, "/x");
    let body = bytes(alloc, rt, "gone");
    Reply {
        status: 303,
        media,
        coding: None,
        location,
        body,
    }
}

fn is_field(field: &Option<ByteBuf>, value: &str) -> bool {
    match field {
        Some(field) => field.as_slice() == value.as_bytes(),
        None => false,
    }
}

fn is_moved(reply: &Reply) -> bool {
    reply.status == 303
        && is_field(&reply.media, "text/html")
        && reply.coding.is_none()
        && is_field(&reply.location, "/x")
        && reply.body.as_slice() == b"gone".as_slice()
}

fn reply_is_copied(rt: &impl Abort, reply: &Reply) -> bool {
    let copy = reply.copy().expect(rt, "memory");
    is_moved(&copy)
}

#[test]
fn a_copied_reply_has_the_same_fields(rt: HostRuntime) {
    let reply = moved(rt.alloc(), &rt);
    assert!(rt; reply_is_copied(&rt, &reply));
    assert!(rt; is_moved(&reply));
}
