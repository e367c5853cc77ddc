//! Calls of `rdf_terms`.
use rdf_terms::{ByteBuf, Seq, Term, TextBuf, Triple, write_label, write_term};
use std::alloc::Global;
use std::process::Abort;
use std::thread;

const INTEGER: &str = "http://www.w3.org/2001/XMLSchema#integer";

const XSD_STRING: &str = "http://www.w3.org/2001/XMLSchema#string";

const LANG_STRING: &str = "http://www.w3.org/1999/02/22-rdf-syntax-ns#langString";

fn text(alloc: Global, rt: &impl Abort, of: &str) -> TextBuf {
    TextBuf::from_str(alloc, of).expect(rt, "memory")
}

fn iri(alloc: Global, rt: &impl Abort, of: &str) -> Term {
    Term::Iri(text(alloc, rt, of))
}

fn blank(alloc: Global, rt: &impl Abort, doc: &str, n: u64) -> Term {
    let doc = text(alloc, rt, doc);
    Term::Blank { doc, n }
}

fn literal(alloc: Global, rt: &impl Abort, lexical: &str, datatype: &str) -> Term {
    let lexical = text(alloc, rt, lexical);
    let datatype = text(alloc, rt, datatype);
    Term::literal(lexical, datatype, None)
}

fn tagged(alloc: Global, rt: &impl Abort, lexical: &str, tag: &str) -> Term {
    let lexical = text(alloc, rt, lexical);
    let datatype = text(alloc, rt, LANG_STRING);
    let tag = text(alloc, rt, tag);
    Term::literal(lexical, datatype, Some(tag))
}

// A tag goes before the datatype, which is left out.
fn tagged_string(alloc: Global, rt: &impl Abort) -> Term {
    let lexical = text(alloc, rt, "a\t\"");
    let datatype = text(alloc, rt, XSD_STRING);
    let tag = text(alloc, rt, "en");
    Term::literal(lexical, datatype, Some(tag))
}

fn has_form(alloc: Global, rt: &impl Abort, term: &Term, form: &str) -> bool {
    write_term(alloc, term).expect(rt, "memory").as_str() == form
}

fn iri_has_form(alloc: Global, rt: &impl Abort) -> bool {
    let term = iri(alloc, rt, "http://a.test/é");
    has_form(alloc, rt, &term, "<http://a.test/é>")
}

fn blank_has_form(alloc: Global, rt: &impl Abort) -> bool {
    let term = blank(alloc, rt, "http://a.test/1", 10);
    has_form(alloc, rt, &term, "_:b10x687474703a2f2f612e746573742f31")
}

fn tagged_has_form(alloc: Global, rt: &impl Abort) -> bool {
    let term = tagged_string(alloc, rt);
    has_form(alloc, rt, &term, "\"a\\t\\\"\"@en")
}

fn literal_has_form(
    alloc: Global,
    rt: &impl Abort,
    lexical: &str,
    datatype: &str,
    form: &str,
) -> bool {
    let term = literal(alloc, rt, lexical, datatype);
    has_form(alloc, rt, &term, form)
}

#[test]
fn writes_each_form(rt: HostRuntime) {
    let alloc = rt.alloc();
    assert!(rt; iri_has_form(alloc, &rt));
    assert!(rt; blank_has_form(alloc, &rt));
    assert!(rt; tagged_has_form(alloc, &rt));
    assert!(rt; literal_has_form(alloc, &rt, "a\r\n\\é€😀'", XSD_STRING, "\"a\\r\\n\\\\é€😀'\""));
    assert!(rt;
        literal_has_form(
            alloc,
            &rt,
            "7",
            INTEGER,
            "\"7\"^^<http://www.w3.org/2001/XMLSchema#integer>"
        )
    );
    assert!(rt;
        literal_has_form(
            alloc,
            &rt,
            "a\"b",
            "http://v.test/t",
            "\"a\\\"b\"^^<http://v.test/t>"
        )
    );
}

fn label_is(alloc: Global, rt: &impl Abort, doc: &str, n: u64, label: &str) -> bool {
    write_label(alloc, doc, n).expect(rt, "memory").as_str() == label
}

#[test]
fn labels_have_number_and_document(rt: HostRuntime) {
    let alloc = rt.alloc();
    assert!(rt; label_is(alloc, &rt, "é", 0, "b0xc3a9"));
    assert!(rt; label_is(alloc, &rt, "a", 7, "b7x61"));
}

fn triple(alloc: Global, rt: &impl Abort) -> Triple {
    let s = blank(alloc, rt, "http://a.test/1", 7);
    let p = iri(alloc, rt, "http://v.test/name");
    let o = tagged(alloc, rt, "Ann", "en");
    Triple { s, p, o }
}

fn is_copied(rt: &impl Abort, triple: &Triple) -> bool {
    triple.copy().expect(rt, "memory") == *triple
}

fn triple_is_copied(alloc: Global, rt: &impl Abort) -> bool {
    let triple = triple(alloc, rt);
    is_copied(rt, &triple)
}

fn term_is_copied(rt: &impl Abort, term: &Term) -> bool {
    term.copy().expect(rt, "memory") == *term
}

fn tagged_is_copied(alloc: Global, rt: &impl Abort) -> bool {
    let term = tagged(alloc, rt, "Ann", "en");
    term_is_copied(rt, &term)
}

fn name(alloc: Global, rt: &impl Abort) -> TextBuf {
    let name = String::from_str(alloc, "Ann").expect(rt, "memory");
    TextBuf::from_string(name).expect(rt, "memory")
}

fn name_is_copied(alloc: Global, rt: &impl Abort) -> bool {
    let name = name(alloc, rt);
    name.copy().expect(rt, "memory").as_str() == "Ann"
}

#[test]
fn copies_are_equal(rt: HostRuntime) {
    let alloc = rt.alloc();
    assert!(rt; triple_is_copied(alloc, &rt));
    assert!(rt; tagged_is_copied(alloc, &rt));
    assert!(rt; name_is_copied(alloc, &rt));
}

fn bytes_grow(alloc: Global, rt: &impl Abort) -> bool {
    let mut bytes = ByteBuf::from_slice(alloc, b"ab").expect(rt, "memory");
    bytes.extend(b"c").expect(rt, "memory");
    bytes.copy().expect(rt, "memory").as_slice() == b"abc".as_slice()
}

fn one_term(alloc: Global, rt: &impl Abort) -> Seq<Term> {
    let mut terms = Seq::new(alloc);
    let term = iri(alloc, rt, "http://a.test/");
    terms.push(term).expect(rt, "memory");
    terms
}

fn list_grows(alloc: Global, rt: &impl Abort) -> bool {
    let terms = one_term(alloc, rt);
    match terms.as_slice() {
        [term] => has_form(alloc, rt, term, "<http://a.test/>"),
        _ => false,
    }
}

#[test]
fn lists_grow_at_their_end(rt: HostRuntime) {
    let alloc = rt.alloc();
    assert!(rt; bytes_grow(alloc, &rt));
    assert!(rt; list_grows(alloc, &rt));
}

#[test]
fn terms_cross_threads(rt: HostRuntime) {
    let first = iri(rt.alloc(), &rt, "http://a.test/1");
    let second = first.copy().expect(&rt, "memory");
    let (less, number) = thread::join(&rt, move || first < second, move || 17);
    assert!(rt; !less);
    assert_eq!(rt; number, 17);
}
