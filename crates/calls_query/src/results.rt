//! Tests of `json_results`.
use json_results::{head, row_text, tail};
use rdf_terms::{Seq, Term, TextBuf};
use std::alloc::Global;
use std::process::Abort;

const HEAD: &[u8] =
    b"{\"head\":{\"vars\":[\"z\",\"b\",\"l\",\"n\",\"u\"]},\"results\":{\"bindings\":[";

const ROW: &[u8] =
    b",\n{\"b\":{\"type\":\"bnode\",\"value\":\"b0x687474703a2f2f612e746573742f31\"},\"l\":{\"type\":\"literal\",\"value\":\"a\\t\\\"\",\"xml:lang\":\"en\"},\"n\":{\"datatype\":\"http://www.w3.org/2001/XMLSchema#integer\",\"type\":\"literal\",\"value\":\"5\"},\"z\":{\"type\":\"uri\",\"value\":\"http://a.test/1\"}}";

fn text(alloc: Global, rt: &impl Abort, of: &str) -> TextBuf {
    TextBuf::from_str(alloc, of).expect(rt, "memory")
}

fn names(alloc: Global, rt: &impl Abort) -> Seq<TextBuf> {
    let mut names = Seq::new(alloc);
    for name in ["z", "b", "l", "n", "u"] {
        names.push(text(alloc, rt, name)).expect(rt, "memory");
    }
    names
}

fn iri(alloc: Global, rt: &impl Abort) -> Term {
    Term::Iri(text(alloc, rt, "http://a.test/1"))
}

fn blank(alloc: Global, rt: &impl Abort) -> Term {
    let doc = text(alloc, rt, "http://a.test/1");
    Term::Blank { doc, n: 0 }
}

fn tagged(alloc: Global, rt: &impl Abort) -> Term {
    let lexical = text(alloc, rt, "a\t\"");
    let datatype = text(
        alloc,
        rt,
        "http://www.w3.org/1999/02/22-rdf-syntax-ns#langString",
    );
    let tag = text(alloc, rt, "en");
    Term::literal(lexical, datatype, Some(tag))
}

fn number(alloc: Global, rt: &impl Abort) -> Term {
    let lexical = text(alloc, rt, "5");
    let datatype = text(alloc, rt, "http://www.w3.org/2001/XMLSchema#integer");
    Term::literal(lexical, datatype, None)
}

// One of each kind, and the last unbound.
fn cells(alloc: Global, rt: &impl Abort) -> [Option<Term>; 5] {
    let iri = iri(alloc, rt);
    let blank = blank(alloc, rt);
    let tagged = tagged(alloc, rt);
    let number = number(alloc, rt);
    [Some(iri), Some(blank), Some(tagged), Some(number), None]
}

fn head_is_written(alloc: Global, rt: &impl Abort) -> bool {
    let names = names(alloc, rt);
    let start = head(alloc, names.as_slice()).expect(rt, "memory");
    start.as_slice() == HEAD
}

fn row_is_written(alloc: Global, rt: &impl Abort) -> bool {
    let names = names(alloc, rt);
    let cells = cells(alloc, rt);
    let row = row_text(alloc, names.as_slice(), &cells, false).expect(rt, "memory");
    row.as_slice() == ROW
}

#[test]
fn writes_each_kind_of_term(rt: HostRuntime) {
    let alloc = rt.alloc();
    assert!(rt; head_is_written(alloc, &rt));
    assert!(rt; row_is_written(alloc, &rt));
    assert!(rt; tail() == b"\n]}}\n".as_slice());
}
