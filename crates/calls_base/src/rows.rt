//! Calls of `rows_core`.
use rdf_terms::{Term, TextBuf, Triple};
use rows_core::{Row, Spot, TriplePattern, bind, compatible, match_triple, merge};
use std::alloc::Global;
use std::process::Abort;

fn iri(alloc: Global, rt: &impl Abort, text: &str) -> Term {
    Term::Iri(TextBuf::from_str(alloc, text).expect(rt, "memory"))
}

// The cell of this IRI; an empty text is no term.
fn cell(alloc: Global, rt: &impl Abort, text: &str) -> Option<Term> {
    match text {
        "" => None,
        _ => Some(iri(alloc, rt, text)),
    }
}

fn row(alloc: Global, rt: &impl Abort, first: &str, second: &str) -> Row {
    let mut cells = Vec::new(alloc);
    cells.push(cell(alloc, rt, first)).expect(rt, "memory");
    cells.push(cell(alloc, rt, second)).expect(rt, "memory");
    Row::from_vec(cells)
}

fn is_row(alloc: Global, rt: &impl Abort, found: &Row, first: &str, second: &str) -> bool {
    let expected = row(alloc, rt, first, second);
    found.cells() == expected.cells()
}

fn unbound_row_is_empty(alloc: Global, rt: &impl Abort) -> bool {
    let unbound = Row::unbound(alloc, 2).expect(rt, "memory");
    is_row(alloc, rt, &unbound, "", "")
}

fn row_is_copied(alloc: Global, rt: &impl Abort, row: &Row) -> bool {
    let copy = row.copy(alloc).expect(rt, "memory");
    is_row(alloc, rt, &copy, "a", "b")
}

fn row_is_swapped(alloc: Global, rt: &impl Abort, row: &Row) -> bool {
    let swapped = row.project(alloc, &[1, 0]).expect(rt, "memory");
    is_row(alloc, rt, &swapped, "b", "a")
}

#[test]
fn rows_are_made_copied_and_projected(rt: HostRuntime) {
    let alloc = rt.alloc();
    let whole = row(alloc, &rt, "a", "b");
    assert!(rt; unbound_row_is_empty(alloc, &rt));
    assert!(rt; row_is_copied(alloc, &rt, &whole));
    assert!(rt; row_is_swapped(alloc, &rt, &whole));
}

fn other_rows_clash(alloc: Global, rt: &impl Abort) -> bool {
    let whole = row(alloc, rt, "a", "b");
    let swapped = row(alloc, rt, "b", "a");
    !compatible(&whole, &swapped)
}

fn merges_to_whole(alloc: Global, rt: &impl Abort, left: &Row, right: &Row) -> bool {
    if !compatible(left, right) {
        return false;
    }
    let merged = merge(alloc, left, right).expect(rt, "memory");
    is_row(alloc, rt, &merged, "a", "b")
}

fn rows_merge(alloc: Global, rt: &impl Abort) -> bool {
    let left = row(alloc, rt, "a", "");
    let right = row(alloc, rt, "", "b");
    merges_to_whole(alloc, rt, &left, &right)
}

#[test]
fn compatible_rows_merge(rt: HostRuntime) {
    assert!(rt; other_rows_clash(rt.alloc(), &rt));
    assert!(rt; rows_merge(rt.alloc(), &rt));
}

fn variable_is_copied(rt: &impl Abort) -> bool {
    let copy = Spot::Var(1).copy().expect(rt, "memory");
    matches!(copy, Spot::Var(1))
}

fn spot_is(spot: &Spot, text: &str) -> bool {
    match spot {
        Spot::Term(Term::Iri(iri)) => iri.as_str() == text,
        _ => false,
    }
}

fn term_is_copied(alloc: Global, rt: &impl Abort) -> bool {
    let spot = Spot::Term(iri(alloc, rt, "p"));
    let copy = spot.copy().expect(rt, "memory");
    spot_is(&copy, "p")
}

// `?0 p ?1`.
fn pattern(alloc: Global, rt: &impl Abort) -> TriplePattern {
    TriplePattern {
        s: Spot::Var(0),
        p: Spot::Term(iri(alloc, rt, "p")),
        o: Spot::Var(1),
    }
}

fn copied_pattern(alloc: Global, rt: &impl Abort) -> TriplePattern {
    let pattern = pattern(alloc, rt);
    pattern.copy().expect(rt, "memory")
}

fn is_pattern(pattern: &TriplePattern) -> bool {
    matches!(pattern.s, Spot::Var(0))
        && spot_is(&pattern.p, "p")
        && matches!(pattern.o, Spot::Var(1))
}

#[test]
fn copies_of_patterns_are_equal(rt: HostRuntime) {
    assert!(rt; variable_is_copied(&rt));
    assert!(rt; term_is_copied(rt.alloc(), &rt));
    let pattern = copied_pattern(rt.alloc(), &rt);
    assert!(rt; is_pattern(&pattern));
}

fn triple(alloc: Global, rt: &impl Abort) -> Triple {
    let s = iri(alloc, rt, "a");
    let p = iri(alloc, rt, "p");
    let o = iri(alloc, rt, "b");
    Triple { s, p, o }
}

// What the pattern and the triple make of a row that binds the first variable to this IRI.
fn bound(alloc: Global, rt: &impl Abort, first: &str) -> Option<Row> {
    let pattern = copied_pattern(alloc, rt);
    let triple = triple(alloc, rt);
    let row = row(alloc, rt, first, "");
    bind(alloc, &pattern, &triple, &row).expect(rt, "memory")
}

fn pattern_matches(alloc: Global, rt: &impl Abort) -> bool {
    let pattern = copied_pattern(alloc, rt);
    let triple = triple(alloc, rt);
    match_triple(&pattern, &triple)
}

fn row_is_bound(alloc: Global, rt: &impl Abort) -> bool {
    match bound(alloc, rt, "a") {
        Some(row) => is_row(alloc, rt, &row, "a", "b"),
        None => false,
    }
}

fn other_row_is_not_bound(alloc: Global, rt: &impl Abort) -> bool {
    bound(alloc, rt, "b").is_none()
}

#[test]
fn a_pattern_binds_its_variables(rt: HostRuntime) {
    let alloc = rt.alloc();
    assert!(rt; pattern_matches(alloc, &rt));
    assert!(rt; row_is_bound(alloc, &rt));
    assert!(rt; other_row_is_not_bound(alloc, &rt));
}
