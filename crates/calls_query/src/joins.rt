//! Tests of `symmetric_join`.
use rdf_terms::{Term, TextBuf};
use rows_core::Row;
use std::alloc::Global;
use std::process::Abort;
use symmetric_join::Node;

// The cell of this IRI; an empty text is no term.
fn cell(alloc: Global, rt: &impl Abort, text: &str) -> Option<Term> {
    match text {
        "" => None,
        _ => Some(Term::Iri(TextBuf::from_str(alloc, text).expect(rt, "memory"))),
    }
}

fn row(alloc: Global, rt: &impl Abort, first: &str, second: &str) -> Row {
    let mut cells = Vec::new(alloc);
    cells.push(cell(alloc, rt, first)).expect(rt, "memory");
    cells.push(cell(alloc, rt, second)).expect(rt, "memory");
    Row::from_vec(cells)
}

fn is_row(alloc: Global, rt: &impl Abort, found: &Row, first: &str, second: &str) -> bool {
    let expected = row(alloc, rt, first, second);
    found.cells() == expected.cells()
}

// How many merges a right row has.
fn right_merges(
    alloc: Global,
    rt: &impl Abort,
    node: &mut Node,
    first: &str,
    second: &str,
) -> usize {
    let row = row(alloc, rt, first, second);
    node.feed_right(row).expect(rt, "memory").len()
}

fn left_merges(
    alloc: Global,
    rt: &impl Abort,
    node: &mut Node,
    first: &str,
    second: &str,
) -> Vec<Row> {
    let row = row(alloc, rt, first, second);
    node.feed_left(row).expect(rt, "memory")
}

// Four rights, of which two leave a variable unbound.
fn with_rights(alloc: Global, rt: &impl Abort) -> Node {
    let mut node = Node::new(alloc, 2).expect(rt, "memory");
    let _ = right_merges(alloc, rt, &mut node, "1", "");
    let _ = right_merges(alloc, rt, &mut node, "", "2");
    let _ = right_merges(alloc, rt, &mut node, "1", "2");
    let _ = right_merges(alloc, rt, &mut node, "3", "2");
    node
}

fn meets_rights_in_their_order(alloc: Global, rt: &impl Abort) -> bool {
    let mut node = with_rights(alloc, rt);
    let merges = left_merges(alloc, rt, &mut node, "1", "");
    merges.len() == 3
        && is_row(alloc, rt, &merges[0], "1", "")
        && is_row(alloc, rt, &merges[1], "1", "2")
        && is_row(alloc, rt, &merges[2], "1", "2")
}

fn merges_with_a_left(alloc: Global, rt: &impl Abort) -> bool {
    let mut node = Node::new(alloc, 2).expect(rt, "memory");
    let _ = left_merges(alloc, rt, &mut node, "1", "");
    let row = row(alloc, rt, "", "2");
    let merges = node.feed_right(row).expect(rt, "memory");
    merges.len() == 1 && is_row(alloc, rt, &merges[0], "1", "2")
}

fn meets_lefts(alloc: Global, rt: &impl Abort) -> bool {
    let mut node = with_rights(alloc, rt);
    let _ = left_merges(alloc, rt, &mut node, "1", "");
    let _ = left_merges(alloc, rt, &mut node, "3", "4");
    right_merges(alloc, rt, &mut node, "", "4") == 2
}

fn shortens(alloc: Global, rt: &impl Abort) -> bool {
    let mut node = with_rights(alloc, rt);
    node.shorten(0, 2);
    node.lens() == (0, 2) && left_merges(alloc, rt, &mut node, "1", "").len() == 2
}

#[test]
fn gives_each_row_its_merges(rt: HostRuntime) {
    let alloc = rt.alloc();
    assert!(rt; meets_rights_in_their_order(alloc, &rt));
    assert!(rt; merges_with_a_left(alloc, &rt));
    assert!(rt; meets_lefts(alloc, &rt));
    assert!(rt; shortens(alloc, &rt));
}
