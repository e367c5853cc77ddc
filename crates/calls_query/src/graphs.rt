//! Tests of `growing_graph`.
use growing_graph::Graph;
use rdf_terms::{Term, TextBuf, Triple};
use rows_core::{Spot, TriplePattern};
use std::alloc::Global;
use std::process::Abort;

fn iri(alloc: Global, rt: &impl Abort, of: &str) -> Term {
    Term::Iri(TextBuf::from_str(alloc, of).expect(rt, "memory"))
}

fn triple(alloc: Global, rt: &impl Abort, object: &str) -> Triple {
    let s = iri(alloc, rt, "http://a.test/1");
    let p = iri(alloc, rt, "http://a.test/p");
    let o = iri(alloc, rt, object);
    Triple { s, p, o }
}

// Whether it was not there.
fn is_inserted(alloc: Global, rt: &impl Abort, graph: &mut Graph, object: &str) -> bool {
    let triple = triple(alloc, rt, object);
    graph.insert(triple).expect(rt, "memory")
}

fn inserts_once(alloc: Global, rt: &impl Abort) -> bool {
    let mut graph = Graph::new(alloc);
    let first = is_inserted(alloc, rt, &mut graph, "a");
    let again = is_inserted(alloc, rt, &mut graph, "a");
    first && !again
}

fn more(alloc: Global, rt: &impl Abort) -> [Triple; 3] {
    let first = triple(alloc, rt, "b");
    let second = triple(alloc, rt, "a");
    let third = triple(alloc, rt, "b");
    [first, second, third]
}

// The triples with the objects a and b.
fn extended(alloc: Global, rt: &impl Abort) -> Graph {
    let mut graph = Graph::new(alloc);
    let _ = is_inserted(alloc, rt, &mut graph, "a");
    let _ = is_inserted(alloc, rt, &mut graph, "a");
    let more = more(alloc, rt);
    graph.extend(&more).expect(rt, "memory");
    graph
}

fn is_of(triple: &Triple, object: &str) -> bool {
    match &triple.o {
        Term::Iri(text) => text.as_str() == object,
        _ => false,
    }
}

fn extends_by_what_is_new(alloc: Global, rt: &impl Abort) -> bool {
    let graph = extended(alloc, rt);
    graph.len() == 2 && is_of(graph.at(1), "b")
}

fn shortens(alloc: Global, rt: &impl Abort) -> bool {
    let mut graph = extended(alloc, rt);
    if graph.len() < 1 {
        return false;
    }
    graph.shorten(1);
    graph.len() == 1
}

#[test]
fn keeps_each_triple_once(rt: HostRuntime) {
    let alloc = rt.alloc();
    assert!(rt; inserts_once(alloc, &rt));
    assert!(rt; extends_by_what_is_new(alloc, &rt));
    assert!(rt; shortens(alloc, &rt));
}

fn of_three(
    alloc: Global,
    rt: &impl Abort,
    subject: &str,
    predicate: &str,
    object: &str,
) -> Triple {
    let s = iri(alloc, rt, subject);
    let p = iri(alloc, rt, predicate);
    let o = iri(alloc, rt, object);
    Triple { s, p, o }
}

// a p b, b p b, a q c, b q a.
fn four(alloc: Global, rt: &impl Abort) -> Graph {
    let mut graph = Graph::new(alloc);
    for (s, p, o) in [
        ("a", "p", "b"),
        ("b", "p", "b"),
        ("a", "q", "c"),
        ("b", "q", "a"),
    ] {
        let triple = of_three(alloc, rt, s, p, o);
        let _ = graph.insert(triple).expect(rt, "memory");
    }
    graph
}

// A variable where the text is a question mark and a digit.
fn spot(alloc: Global, rt: &impl Abort, text: &str) -> Spot {
    match text {
        "?0" => Spot::Var(0),
        "?1" => Spot::Var(1),
        "?2" => Spot::Var(2),
        _ => Spot::Term(iri(alloc, rt, text)),
    }
}

fn pattern(alloc: Global, rt: &impl Abort, s: &str, p: &str, o: &str) -> TriplePattern {
    let s = spot(alloc, rt, s);
    let p = spot(alloc, rt, p);
    let o = spot(alloc, rt, o);
    TriplePattern { s, p, o }
}

// The triples of the graph that match stand at these places.
fn match_at(
    alloc: Global,
    rt: &impl Abort,
    graph: &Graph,
    of: (&str, &str, &str),
    places: &[usize],
) -> bool {
    let (s, p, o) = of;
    let pattern = pattern(alloc, rt, s, p, o);
    let found = graph.matching(&pattern).expect(rt, "memory");
    found.as_slice() == places
}

fn finds_by_one_term(alloc: Global, rt: &impl Abort) -> bool {
    let graph = four(alloc, rt);
    match_at(alloc, rt, &graph, ("a", "?0", "?1"), &[0, 2])
        && match_at(alloc, rt, &graph, ("?0", "p", "?1"), &[0, 1])
        && match_at(alloc, rt, &graph, ("?0", "?1", "b"), &[0, 1])
}

fn finds_by_two_terms(alloc: Global, rt: &impl Abort) -> bool {
    let graph = four(alloc, rt);
    match_at(alloc, rt, &graph, ("b", "q", "?0"), &[3])
        && match_at(alloc, rt, &graph, ("b", "?0", "b"), &[1])
        && match_at(alloc, rt, &graph, ("?0", "q", "c"), &[2])
}

fn finds_by_all_or_none(alloc: Global, rt: &impl Abort) -> bool {
    let graph = four(alloc, rt);
    match_at(alloc, rt, &graph, ("a", "p", "b"), &[0])
        && match_at(alloc, rt, &graph, ("?0", "?1", "?2"), &[0, 1, 2, 3])
}

fn finds_what_two_places_share(alloc: Global, rt: &impl Abort) -> bool {
    let graph = four(alloc, rt);
    match_at(alloc, rt, &graph, ("?0", "?1", "?0"), &[1])
        && match_at(alloc, rt, &graph, ("?0", "q", "?0"), &[])
}

// The first two triples, and c q b behind them.
fn cut(alloc: Global, rt: &impl Abort) -> Graph {
    let mut graph = four(alloc, rt);
    if graph.len() >= 2 {
        graph.shorten(2);
    }
    let triple = of_three(alloc, rt, "c", "q", "b");
    let _ = graph.insert(triple).expect(rt, "memory");
    graph
}

fn finds_after_a_cut(alloc: Global, rt: &impl Abort) -> bool {
    let graph = cut(alloc, rt);
    match_at(alloc, rt, &graph, ("?0", "q", "?1"), &[2])
        && match_at(alloc, rt, &graph, ("?0", "?1", "b"), &[0, 1, 2])
}

#[test]
fn finds_exactly_what_matches(rt: HostRuntime) {
    let alloc = rt.alloc();
    assert!(rt; finds_by_one_term(alloc, &rt));
    assert!(rt; finds_by_two_terms(alloc, &rt));
    assert!(rt; finds_by_all_or_none(alloc, &rt));
    assert!(rt; finds_what_two_places_share(alloc, &rt));
    assert!(rt; finds_after_a_cut(alloc, &rt));
}
