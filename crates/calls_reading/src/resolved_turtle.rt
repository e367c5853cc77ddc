//! Calls of `turtle_reader`.
use std::alloc::Global;
use std::process::Abort;
use turtle_lexer::lex_turtle;
use turtle_reader::{Fault, Kind, Resolved, Token, resolve};

fn resolved(alloc: Global, rt: &impl Abort, text: &[u8]) -> Resolved {
    let tokens = lex_turtle(alloc, text).expect(rt, "memory");
    resolve(alloc, "http://a.test/", text, tokens.as_slice()).expect(rt, "memory")
}

fn is_iri(token: &Token, text: &str) -> bool {
    match &token.kind {
        Kind::IriRef(iri) => iri.as_str() == text,
        _ => false,
    }
}

fn are_base_and_iri(tokens: &[Token]) -> bool {
    match tokens {
        [_, base, iri] => is_iri(base, "http://a.test/x/") && is_iri(iri, "http://a.test/x/y"),
        _ => false,
    }
}

#[test]
fn resolves_against_the_base_in_force(rt: HostRuntime) {
    let resolved = resolved(rt.alloc(), &rt, b"BASE <x/> <y> p:z");
    assert!(rt; resolved.stop == Fault::Syntax(14));
    assert!(rt; are_base_and_iri(resolved.tokens.as_slice()));
}
