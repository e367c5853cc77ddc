//! Calls of `sparql_resolve`.
use rdf_terms::TextBuf;
use sparql_lexer::lex_sparql;
use sparql_resolve::{Fault, Resolved, resolve};
use std::alloc::Global;
use std::process::Abort;

fn resolved(alloc: Global, rt: &impl Abort, text: &str) -> Resolved {
    let tokens = lex_sparql(alloc, text).expect(rt, "memory");
    resolve(alloc, text, tokens.as_slice()).expect(rt, "memory")
}

fn are_two_names(names: &[TextBuf]) -> bool {
    match names {
        [first, second] => first.as_str() == "p" && second.as_str() == "o",
        _ => false,
    }
}

#[test]
fn refuses_a_label_in_two_patterns(rt: HostRuntime) {
    let resolved = resolved(rt.alloc(), &rt, "{_:a ?p ?o{}_:a ?p ?o}");
    assert!(rt; resolved.stop == Fault::Syntax(12));
    assert_eq!(rt; resolved.tokens.len(), 6);
    assert_eq!(rt; resolved.width, 3);
    assert!(rt; are_two_names(resolved.names.as_slice()));
}
