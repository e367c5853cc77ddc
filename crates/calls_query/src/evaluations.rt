//! Tests of `algebra_core`.
use algebra_core::{Algebra, Key, Query, evaluate_over, evaluate_query, is_monotone, patterns};
use expr_eval::Expr;
use growing_graph::Graph;
use rdf_terms::{Seq, Term, TextBuf, Triple};
use rows_core::{Row, Spot, TriplePattern};
use std::alloc::Global;
use std::process::Abort;

fn text(alloc: Global, rt: &impl Abort, of: &str) -> TextBuf {
    TextBuf::from_str(alloc, of).expect(rt, "memory")
}

fn iri(alloc: Global, rt: &impl Abort, of: &str) -> Term {
    Term::Iri(text(alloc, rt, of))
}

fn triple(alloc: Global, rt: &impl Abort, subject: &str, object: &str) -> Triple {
    let s = iri(alloc, rt, subject);
    let p = iri(alloc, rt, "p");
    let o = iri(alloc, rt, object);
    Triple { s, p, o }
}

fn names(alloc: Global, rt: &impl Abort) -> Seq<TextBuf> {
    let mut names = Seq::new(alloc);
    for name in ["s", "o"] {
        names.push(text(alloc, rt, name)).expect(rt, "memory");
    }
    names
}

fn first_variable(alloc: Global, rt: &impl Abort) -> Seq<u16> {
    let mut select = Seq::new(alloc);
    select.push(0).expect(rt, "memory");
    select
}

fn body(alloc: Global, rt: &impl Abort) -> Algebra {
    let p = Spot::Term(iri(alloc, rt, "p"));
    let pattern = TriplePattern {
        s: Spot::Var(0),
        p,
        o: Spot::Var(1),
    };
    let mut body = Seq::new(alloc);
    body.push(pattern).expect(rt, "memory");
    Algebra::Bgp(body)
}

// The distinct subjects of triples whose predicate is p.
fn subjects(alloc: Global, rt: &impl Abort) -> Query {
    let names = names(alloc, rt);
    let select = first_variable(alloc, rt);
    let body = body(alloc, rt);
    Query {
        names,
        width: 2,
        select,
        distinct: true,
        body,
        order: Seq::new(alloc),
    }
}

fn triples(alloc: Global, rt: &impl Abort) -> [Triple; 3] {
    let first = triple(alloc, rt, "a", "b");
    let second = triple(alloc, rt, "a", "c");
    let third = triple(alloc, rt, "d", "b");
    [first, second, third]
}

fn rows_of(alloc: Global, rt: &impl Abort, query: &Query) -> Seq<Row> {
    let triples = triples(alloc, rt);
    evaluate_query(alloc, query, &triples).expect(rt, "memory")
}

fn is_row_of(row: &Row, subject: &str) -> bool {
    match row.cells() {
        [Some(Term::Iri(text))] => text.as_str() == subject,
        _ => false,
    }
}

fn are_rows_of(rows: &[Row], first: &str, second: &str) -> bool {
    match rows {
        [a, b] => is_row_of(a, first) && is_row_of(b, second),
        _ => false,
    }
}

fn a_copy_gives_each_row_once(alloc: Global, rt: &impl Abort) -> bool {
    let query = subjects(alloc, rt);
    let copy = query.copy(alloc).expect(rt, "memory");
    let rows = rows_of(alloc, rt, &copy);
    are_rows_of(rows.as_slice(), "a", "d")
}

fn graph(alloc: Global, rt: &impl Abort) -> Graph {
    let triples = triples(alloc, rt);
    let mut graph = Graph::new(alloc);
    graph.extend(&triples).expect(rt, "memory");
    graph
}

fn a_graph_gives_each_row_once(alloc: Global, rt: &impl Abort) -> bool {
    let query = subjects(alloc, rt);
    let graph = graph(alloc, rt);
    let rows = evaluate_over(alloc, &query, &graph).expect(rt, "memory");
    are_rows_of(rows.as_slice(), "a", "d")
}

fn push_pattern(alloc: Global, rt: &impl Abort, body: &mut Seq<TriplePattern>, s: u16, o: u16) {
    let p = Spot::Term(iri(alloc, rt, "p"));
    let s = Spot::Var(s);
    let o = Spot::Var(o);
    body.push(TriplePattern { s, p, o }).expect(rt, "memory");
}

// Pairs of triples in which the first's object is the second's subject.
fn chained(alloc: Global, rt: &impl Abort) -> Algebra {
    let mut body = Seq::new(alloc);
    push_pattern(alloc, rt, &mut body, 0, 1);
    push_pattern(alloc, rt, &mut body, 1, 2);
    Algebra::Bgp(body)
}

fn starts_of_chains(alloc: Global, rt: &impl Abort) -> Query {
    let names = names(alloc, rt);
    let select = first_variable(alloc, rt);
    let body = chained(alloc, rt);
    Query {
        names,
        width: 3,
        select,
        distinct: false,
        body,
        order: Seq::new(alloc),
    }
}

fn longer(alloc: Global, rt: &impl Abort) -> Graph {
    let mut graph = graph(alloc, rt);
    let closing = triple(alloc, rt, "b", "e");
    let _ = graph.insert(closing).expect(rt, "memory");
    graph
}

fn a_chain_is_followed_by_its_terms(alloc: Global, rt: &impl Abort) -> bool {
    let query = starts_of_chains(alloc, rt);
    let graph = longer(alloc, rt);
    let rows = evaluate_over(alloc, &query, &graph).expect(rt, "memory");
    are_rows_of(rows.as_slice(), "a", "d")
}

#[test]
fn equal_rows_come_once_where_asked(rt: HostRuntime) {
    let alloc = rt.alloc();
    assert!(rt; a_copy_gives_each_row_once(alloc, &rt));
    assert!(rt; a_graph_gives_each_row_once(alloc, &rt));
    assert!(rt; a_chain_is_followed_by_its_terms(alloc, &rt));
}

fn subjects_are_monotone(alloc: Global, rt: &impl Abort) -> bool {
    let query = subjects(alloc, rt);
    is_monotone(&query)
}

fn has_one_pattern(algebra: &Algebra) -> bool {
    match algebra {
        Algebra::Bgp(patterns) => patterns.len() == 1,
        _ => false,
    }
}

fn a_copied_body_has_one_pattern(alloc: Global, rt: &impl Abort) -> bool {
    let body = body(alloc, rt);
    let copy = body.copy(alloc).expect(rt, "memory");
    has_one_pattern(&copy)
}

fn is_variable(spot: &Spot, number: u16) -> bool {
    match spot {
        Spot::Var(variable) => *variable == number,
        Spot::Term(_) => false,
    }
}

fn the_pattern_is_listed(alloc: Global, rt: &impl Abort) -> bool {
    let query = subjects(alloc, rt);
    let listed = patterns(alloc, &query).expect(rt, "memory");
    match listed.as_slice() {
        [pattern] => is_variable(&pattern.o, 1),
        _ => false,
    }
}

#[test]
fn a_single_pattern_is_monotone(rt: HostRuntime) {
    let alloc = rt.alloc();
    assert!(rt; subjects_are_monotone(alloc, &rt));
    assert!(rt; a_copied_body_has_one_pattern(alloc, &rt));
    assert!(rt; the_pattern_is_listed(alloc, &rt));
}

fn descending(alloc: Global, rt: &impl Abort) -> Seq<Key> {
    let key = Key {
        expr: Expr::Var(0),
        descending: true,
    };
    let copy = key.copy(alloc).expect(rt, "memory");
    let mut order = Seq::new(alloc);
    order.push(copy).expect(rt, "memory");
    order
}

fn the_last_comes_first(alloc: Global, rt: &impl Abort) -> bool {
    let mut query = subjects(alloc, rt);
    query.order = descending(alloc, rt);
    let rows = rows_of(alloc, rt, &query);
    are_rows_of(rows.as_slice(), "d", "a")
}

#[test]
fn a_copied_key_puts_the_last_first(rt: HostRuntime) {
    let alloc = rt.alloc();
    assert!(rt; the_last_comes_first(alloc, &rt));
}
