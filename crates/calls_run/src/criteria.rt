//! Tests of `reach_criteria`.
use link_uri::Link;
use rdf_terms::{Term, TextBuf, Triple};
use reach_criteria::{Criterion, links_of};
use rows_core::{Spot, TriplePattern};
use std::alloc::Global;
use std::process::Abort;

fn text(alloc: Global, rt: &impl Abort, of: &str) -> TextBuf {
    TextBuf::from_str(alloc, of).expect(rt, "memory")
}

fn iri(alloc: Global, rt: &impl Abort, of: &str) -> Term {
    Term::Iri(text(alloc, rt, of))
}

fn typed(alloc: Global, rt: &impl Abort, lexical: &str) -> Term {
    let datatype = text(alloc, rt, "http://v.test/type");
    let lexical = text(alloc, rt, lexical);
    Term::Literal {
        datatype,
        tag: None,
        lexical,
    }
}

fn triple(alloc: Global, rt: &impl Abort, subject: &str, o: Term) -> Triple {
    let s = iri(alloc, rt, subject);
    let p = iri(alloc, rt, "http://a.test/p");
    Triple { s, p, o }
}

fn of_iris(alloc: Global, rt: &impl Abort, subject: &str, object: &str) -> Triple {
    let o = iri(alloc, rt, object);
    triple(alloc, rt, subject, o)
}

fn of_literal(alloc: Global, rt: &impl Abort, subject: &str, lexical: &str) -> Triple {
    let o = typed(alloc, rt, lexical);
    triple(alloc, rt, subject, o)
}

fn triples(alloc: Global, rt: &impl Abort) -> [Triple; 3] {
    let first = of_iris(alloc, rt, "http://a.test/1", "http://a.test/1#me");
    let second = of_iris(alloc, rt, "mailto:a@a.test", "http://a.test/2");
    let third = of_literal(alloc, rt, "http://a.test/2", "http://a.test/5");
    [first, second, third]
}

fn followed(alloc: Global, rt: &impl Abort, criterion: Criterion) -> Vec<Link> {
    let triples = triples(alloc, rt);
    links_of(alloc, &triples, criterion, &[]).expect(rt, "memory")
}

fn are_three(links: &[Link]) -> bool {
    match links {
        [a, b, c] => {
            a.text.as_str() == "http://a.test/1"
                && b.text.as_str() == "http://a.test/p"
                && c.text.as_str() == "http://a.test/2"
        }
        _ => false,
    }
}

fn all_names_three(alloc: Global, rt: &impl Abort) -> bool {
    let links = followed(alloc, rt, Criterion::All);
    are_three(links.as_slice())
}

fn none_names_nothing(alloc: Global, rt: &impl Abort) -> bool {
    followed(alloc, rt, Criterion::None).is_empty()
}

// The pattern of what has itself for an object.
fn pattern(alloc: Global, rt: &impl Abort) -> TriplePattern {
    let p = iri(alloc, rt, "http://a.test/p");
    TriplePattern {
        s: Spot::Var(0),
        p: Spot::Term(p),
        o: Spot::Var(0),
    }
}

fn are_two(links: &[Link]) -> bool {
    match links {
        [a, b] => a.text.as_str() == "http://a.test/1" && b.text.as_str() == "http://a.test/p",
        _ => false,
    }
}

fn match_names_two(alloc: Global, rt: &impl Abort) -> bool {
    let first = of_iris(alloc, rt, "http://a.test/1", "http://a.test/1");
    let second = of_iris(alloc, rt, "http://a.test/2", "http://a.test/3");
    let patterns = [pattern(alloc, rt)];
    let links = links_of(alloc, &[first, second], Criterion::Match, &patterns).expect(rt, "memory");
    are_two(links.as_slice())
}

// Subject, predicate and object in order, each link once, the fragment left out, and nothing for a
// literal or for another scheme.
#[test]
fn names_each_link_once_in_order(rt: HostRuntime) {
    let alloc = rt.alloc();
    assert!(rt; all_names_three(alloc, &rt));
    assert!(rt; none_names_nothing(alloc, &rt));
}

// A variable that stands twice is bound to one term.
#[test]
fn follows_what_matches(rt: HostRuntime) {
    assert!(rt; match_names_two(rt.alloc(), &rt));
}
