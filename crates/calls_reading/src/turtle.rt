//! Calls of `turtle_reader`.
use rdf_terms::{Term, Triple, write_term};
use std::alloc::Global;
use std::process::Abort;
use turtle_reader::{ReadFault, read_turtle};

const DOC: &str = "http://a.test/d";

fn has_form(alloc: Global, rt: &impl Abort, term: &Term, form: &str) -> bool {
    write_term(alloc, term).expect(rt, "memory").as_str() == form
}

fn are_six(alloc: Global, rt: &impl Abort, triples: &[Triple]) -> bool {
    match triples {
        [_, _, _, _, _, last] => has_form(alloc, rt, &last.s, "<http://a.test/x/y>"),
        _ => false,
    }
}

#[test]
fn orders_and_numbers_as_the_text_goes(rt: HostRuntime) {
    let text = b"@base <x/>.<y> a (_:l [<p>'v'@EN]).";
    let triples = read_turtle(rt.alloc(), DOC, DOC, text).expect(&rt, "triples");
    assert!(rt; are_six(rt.alloc(), &rt, triples.as_slice()));
}

fn has_fault(alloc: Global, text: &[u8], wanted: ReadFault) -> bool {
    match read_turtle(alloc, DOC, DOC, text) {
        Ok(_) => false,
        Err(fault) => fault == wanted,
    }
}

#[test]
fn places_the_fault_at_its_token(rt: HostRuntime) {
    assert!(rt; has_fault(rt.alloc(), b"<a> <b> <c>", ReadFault::Syntax { at: 11 }));
}
