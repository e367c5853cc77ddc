//! Calls of `iri_core`.
use iri_core::{IriFault, NotAnIri, Span, check, piece, resolve, split};
use std::alloc::Global;
use std::process::Abort;

// The base of RFC 3986, section 5.4.
const BASE: &str = "http://a/b/c/d;p?q";

fn leads_to(rt: &impl Abort, alloc: Global, base: &str, text: &str, wanted: &str) -> bool {
    resolve(alloc, base, text).expect(rt, "an IRI").as_str() == wanted
}

fn expect_all(rt: &impl Abort, alloc: Global, base: &str, rows: &[(&str, &str)]) {
    for (text, wanted) in rows {
        assert!(rt; leads_to(rt, alloc, base, text, wanted), "{text}");
    }
}

#[test]
fn resolves_the_examples(rt: HostRuntime) {
    let rows = [
        ("g", "http://a/b/c/g"),
        ("../g", "http://a/b/g"),
        ("../../../g", "http://a/g"),
        ("?y", "http://a/b/c/d;p?y"),
        ("#s", "http://a/b/c/d;p?q#s"),
        ("", "http://a/b/c/d;p?q"),
        ("//g", "http://g"),
        ("g:h", "g:h"),
    ];
    expect_all(&rt, rt.alloc(), BASE, &rows);
}

#[test]
fn keeps_a_text_with_a_scheme(rt: HostRuntime) {
    let rows = [
        ("http:../g", "http:../g"),
        ("a+b-c.1:x/../y#z", "a+b-c.1:x/../y#z"),
        ("g:", "g:"),
        ("http:g", "http:g"),
    ];
    expect_all(&rt, rt.alloc(), BASE, &rows);
}

#[test]
fn takes_an_authority(rt: HostRuntime) {
    let rows = [
        ("//h/./x/../y?z#f", "http://h/y?z#f"),
        ("//h", "http://h"),
        ("//h?y", "http://h?y"),
        ("//h/..", "http://h/"),
        ("//", "http://"),
        ("///x", "http:///x"),
    ];
    expect_all(&rt, rt.alloc(), BASE, &rows);
}

#[test]
fn takes_an_empty_path(rt: HostRuntime) {
    let rows = [
        ("?", "http://a/b/c/d;p?"),
        ("#", "http://a/b/c/d;p?q#"),
        ("?y#s", "http://a/b/c/d;p?y#s"),
    ];
    expect_all(&rt, rt.alloc(), BASE, &rows);
}

#[test]
fn takes_a_path_from_the_root(rt: HostRuntime) {
    let rows = [
        ("/g", "http://a/g"),
        ("/./g", "http://a/g"),
        ("/../g", "http://a/g"),
        ("/a/b/../../g?y", "http://a/g?y"),
        ("/", "http://a/"),
        ("/.", "http://a/"),
    ];
    expect_all(&rt, rt.alloc(), BASE, &rows);
}

#[test]
fn merges_a_path(rt: HostRuntime) {
    let rows = [
        ("./g", "http://a/b/c/g"),
        ("g/", "http://a/b/c/g/"),
        ("g?y", "http://a/b/c/g?y"),
        ("g#s", "http://a/b/c/g#s"),
        ("g;x=1/../y", "http://a/b/c/y"),
        ("./g/.", "http://a/b/c/g/"),
        ("g/./h", "http://a/b/c/g/h"),
        ("g/../h", "http://a/b/c/h"),
        ("g?y/../x", "http://a/b/c/g?y/../x"),
        ("g#s/../x", "http://a/b/c/g#s/../x"),
        (".", "http://a/b/c/"),
        ("./", "http://a/b/c/"),
        ("..", "http://a/b/"),
        ("../", "http://a/b/"),
        ("../..", "http://a/"),
        ("../../", "http://a/"),
        ("../../g", "http://a/g"),
        (".g", "http://a/b/c/.g"),
        ("g..", "http://a/b/c/g.."),
        ("..g", "http://a/b/c/..g"),
        ("g//h", "http://a/b/c/g//h"),
        ("g/.//h", "http://a/b/c/g//h"),
        ("é/../ü", "http://a/b/c/ü"),
    ];
    expect_all(&rt, rt.alloc(), BASE, &rows);
}

#[test]
fn takes_any_base(rt: HostRuntime) {
    // a base with an authority and no path
    let rows = [
        ("g", "http://a/g"),
        ("?y", "http://a?y"),
        ("", "http://a"),
        ("../g", "http://a/g"),
        ("#s", "http://a#s"),
    ];
    expect_all(&rt, rt.alloc(), "http://a", &rows);
    // a base with an authority, a query and no path
    let rows = [
        ("", "http://a?q"),
        ("g", "http://a/g"),
        ("?y", "http://a?y"),
    ];
    expect_all(&rt, rt.alloc(), "http://a?q", &rows);
    // a base without an authority
    let rows = [
        ("d", "a:b/d"),
        ("../d", "a:/d"),
        ("../../d", "a:/d"),
        ("/d", "a:/d"),
        ("..", "a:/"),
        ("//h", "a://h"),
    ];
    expect_all(&rt, rt.alloc(), "a:b/c", &rows);
    // a base whose path has no slash
    let rows = [
        ("d", "a:d"),
        ("..", "a:"),
        ("./d", "a:d"),
        ("../d", "a:d"),
        ("", "a:b"),
        ("./../d", "a:d"),
    ];
    expect_all(&rt, rt.alloc(), "a:b", &rows);
    // a base without a scheme
    let rows = [
        ("z", "x/z"),
        ("../z", "/z"),
        ("//h", "//h"),
        ("./a:b", "x/a:b"),
        ("../../z", "/z"),
    ];
    expect_all(&rt, rt.alloc(), "x/y", &rows);
    // an empty base
    let rows = [
        ("g", "g"),
        (".", ""),
        ("..//g", "/g"),
        ("./.", ""),
        ("/g", "/g"),
        ("?y", "?y"),
        (".//g", "/g"),
    ];
    expect_all(&rt, rt.alloc(), "", &rows);
    // a base with dots and a fragment
    let rows = [
        ("", "http://a/b/../c"),
        ("?y", "http://a/b/../c?y"),
        ("d", "http://a/d"),
        ("#s", "http://a/b/../c#s"),
    ];
    expect_all(&rt, rt.alloc(), "http://a/b/../c#f", &rows);
}

fn is_refused(alloc: Global, text: &str, at: usize) -> bool {
    match resolve(alloc, BASE, text) {
        Err(IriFault::NotAnIri { at: place }) => place == at,
        _ => false,
    }
}

#[test]
fn refuses_at_the_place(rt: HostRuntime) {
    let refused = [
        (":x", 0),
        ("1a:b", 0),
        ("a_b:c", 0),
        ("é:x", 0),
        ("a b:", 1),
        ("a:b c", 3),
        ("é|", 2),
        ("x\\y", 1),
    ];
    for (text, at) in refused {
        assert!(rt; check(text) == Err(NotAnIri { at }));
        assert!(rt; is_refused(rt.alloc(), text, at), "{text}");
    }
    for text in ["", "a/b:c", "?:", "#:", "a+b-c.1:", "http://é/ü"] {
        assert!(rt; check(text).is_ok());
    }
}

#[test]
fn finds_the_parts(rt: HostRuntime) {
    let text = "a:b//c:d/e?f/g?#h#?";
    let parts = split(text);
    assert_eq!(rt; parts.scheme, Some(Span { from: 0, to: 1 }));
    assert_eq!(rt; parts.authority, None);
    assert_eq!(rt; piece(text, parts.path), "b//c:d/e");
    assert_eq!(rt; parts.query, Some(Span { from: 11, to: 15 }));
    assert_eq!(rt; parts.fragment, Some(Span { from: 16, to: 19 }));
    let parts = split("//h:1?q");
    assert_eq!(rt; parts.scheme, None);
    assert_eq!(rt; parts.authority, Some(Span { from: 2, to: 5 }));
    assert_eq!(rt; parts.path, Span { from: 5, to: 5 });
}
