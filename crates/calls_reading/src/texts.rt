//! Calls of `terminals`.
use iri_core::{prefixed_iri, resolved_iri};
use rdf_terms::{Memory, TextBuf};
use std::alloc::Global;
use std::process::Abort;
use terminals::{
    iri_text, label_text, local_text, plain_text, prefix_text, string_text, tag_text, variable_text,
};

type Read = Result<Option<TextBuf>, Memory>;

fn gives(rt: &impl Abort, read: Read, text: &str) -> bool {
    match read.expect(rt, "memory") {
        Some(read) => read.as_str() == text,
        None => false,
    }
}

#[test]
fn undoes_escapes(rt: HostRuntime) {
    assert!(rt; gives(&rt, iri_text(rt.alloc(), b"<a\\u00E9>"), "aé"));
}

#[test]
fn takes_off_three_quotes(rt: HostRuntime) {
    assert!(rt; gives(&rt, string_text(rt.alloc(), b"'''a\\tb'c'''"), "a\tb'c"));
}

#[test]
fn parts_a_name_at_its_first_colon(rt: HostRuntime) {
    assert!(rt; gives(&rt, prefix_text(rt.alloc(), b"v:a:b\\~"), "v"));
    assert!(rt; gives(&rt, local_text(rt.alloc(), b"v:a:b\\~"), "a:b~"));
}

#[test]
fn takes_off_marks(rt: HostRuntime) {
    assert!(rt; gives(&rt, label_text(rt.alloc(), b"_:b1"), "b1"));
    assert!(rt; gives(&rt, variable_text(rt.alloc(), b"?name"), "name"));
    assert!(rt; gives(&rt, tag_text(rt.alloc(), b"@en-GB"), "en-gb"));
    assert!(rt; gives(&rt, plain_text(rt.alloc(), b"-1.50"), "-1.50"));
}

fn text(alloc: Global, rt: &impl Abort, of: &str) -> TextBuf {
    TextBuf::from_str(alloc, of).expect(rt, "memory")
}

fn name_is_in_full(alloc: Global, rt: &impl Abort) -> bool {
    let namespace = text(alloc, rt, "http://v.test/");
    let local = text(alloc, rt, "name");
    gives(
        rt,
        prefixed_iri(alloc, &namespace, &local),
        "http://v.test/name",
    )
}

#[test]
fn gives_iris_in_full(rt: HostRuntime) {
    let referred = resolved_iri(rt.alloc(), "http://a.test/b/c", "../d");
    assert!(rt; gives(&rt, referred, "http://a.test/d"));
    assert!(rt; name_is_in_full(rt.alloc(), &rt));
}
