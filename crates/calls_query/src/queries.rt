//! Tests of `sparql_parser`.
use algebra_core::{Algebra, Key, Query};
use expr_eval::Expr;
use sparql_parser::{QueryFault, read_query};
use std::alloc::Global;
use std::process::Abort;

const TEXT: &str = "SELECT DISTINCT*{?b a[<a:c>?a]OPTIONAL{}FILTER(?u)}ORDER BY DESC(?a)";

// Three names, and a blank node.
fn has_its_variables(query: &Query) -> bool {
    query.names.len() == 3 && query.width == 4 && query.select.as_slice() == [0, 1].as_slice()
}

fn is_filtered(body: &Algebra) -> bool {
    matches!(body, Algebra::Filter(Expr::Var(2), _))
}

fn is_descending(order: &[Key]) -> bool {
    matches!(order, [key] if key.descending)
}

fn is_read(alloc: Global, rt: &impl Abort) -> bool {
    let query = read_query(alloc, TEXT).expect(rt, "a query");
    query.distinct
        && has_its_variables(&query)
        && is_filtered(&query.body)
        && is_descending(query.order.as_slice())
}

#[test]
fn reads_a_query(rt: HostRuntime) {
    let alloc = rt.alloc();
    assert!(rt; is_read(alloc, &rt));
}

fn fault(alloc: Global, text: &str) -> Option<QueryFault> {
    read_query(alloc, text).err()
}

#[test]
fn refuses_at_the_first_fault(rt: HostRuntime) {
    let cases = [
        ("SELECT ?a { ?a <b> \"\\q", QueryFault::Syntax { at: 15 }),
        ("SELECT ?a { ?a <a:b> (", QueryFault::Unsupported { at: 21 }),
        (
            "SELECT*{{{{{{{{{{{{{{{{{{{{{{{{{{{{{{{{{",
            QueryFault::Deep { at: 39 },
        ),
    ];
    for (text, expected) in &cases {
        assert!(rt; fault(rt.alloc(), text) == Some(*expected));
    }
}
