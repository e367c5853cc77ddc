ghost use Rattle.std.specs.Prelude.{◌≡◌, [], ◌∷◌, ◌++◌, IfOk, OnOk, map, filter, length};
ghost use Rattle.std.specs.List.{flat_map};
ghost use Rattle.rows_core.specs.Rows.{projected, unbound};
ghost use Rattle.algebra_core.specs.Graphs.{all_extended, once, graph as spec_graph};
ghost use Rattle.algebra_core.specs.Meaning as spec;
ghost use Rattle.algebra_core.specs.Query.{same_row, distinct_if, body_rows, Answers, solutions};

use crate::algebra::Algebra;
use crate::basic_patterns::extend_all;
use crate::conditions::holds;
use crate::ordering::ordered_rows;
use crate::query::Query;
use expr_eval::Expr;
use growing_graph::Graph;
use indexmap::IndexSet;
use rdf_terms::{Memory, Seq, Term, Triple};
use rows_core::{Row, TriplePattern, compatible, merge};
use std::alloc::Global;

/// The solutions of the query over the triples as a set (SPARQL 1.1 Query Language, sections 15 and
/// 18.5): in order where the query has keys, then projected, then each once where DISTINCT is asked.
///
/// It costs a graph of the triples, into which each is copied, and then what `evaluate_over` costs.
pub fn evaluate_query(alloc: Global, query: &Query, triples: &[Triple]) -> Result<Seq<Row>, Memory>
    ensures list { IfOk result (λ rows. rows ≡ solutions query.now triples.now) }
    ensures answers { IfOk result (λ rows. Answers query.now triples.now rows) }
{
    let graph = graph_of(alloc, triples)?;
    let rows = evaluate_over(alloc, query, &graph)?;
    Ok(rows)
}

fn graph_of(alloc: Global, triples: &[Triple]) -> Result<Graph, Memory>
    ensures { IfOk result (λ graph. graph ≡ spec_graph triples.now) }
{
    let mut graph = Graph::new(alloc);
    graph.extend(triples)?;
    Ok(graph)
}

/// The solutions of the query over the graph, as `evaluate_query` gives them over its triples.
///
/// It is nested loops over a finished graph. For each pattern it costs for each row so far a look-up
/// by the terms of the pattern and of the row, a test of each triple that has the rarest of them in
/// its place, and a row for each that extends it; for a join or an optional part a test of each pair of rows, and
/// a row for each pair that fits; for a filter an evaluation a row. With keys it costs an evaluation
/// of each key a row and n log n comparisons of n rows; for DISTINCT a hash of each row.
pub fn evaluate_over(alloc: Global, query: &Query, graph: &Graph) -> Result<Seq<Row>, Memory>
    ensures list { IfOk result (λ rows. rows ≡ solutions query.now graph.now) }
    ensures answers { IfOk result (λ rows. Answers query.now graph.now rows) }
{
    let rows = body_solutions(alloc, query, graph)?;
    let rows = ordered_rows(alloc, query, rows)?;
    let rows = project_rows(alloc, query.select.as_slice(), rows)?;
    let rows = distinct_rows(alloc, query.distinct, rows)?;
    Ok(Seq::from_vec(rows))
}

fn body_solutions(alloc: Global, query: &Query, graph: &Graph) -> Result<Vec<Row>, Memory>
    ensures { IfOk result (λ rows. rows.items ≡ body_rows query.now graph.now) }
{
    graph.has_each_once();
    let size = Size {
        width: query.width,
        names: query.names.len(),
    };
    let rows = evaluate(alloc, size, &query.body, graph)?;
    Ok(rows)
}

/// The width of rows, and the number of variables with names.
#[derive(Clone, Copy, Debug, Drop)]
struct Size {
    width: u16,
    names: usize,
}

/// What an expression gives over a graph.
#[tactic(auto, using(crate::proofs::Evals::evals))]
fn evaluate(alloc: Global, size: Size, algebra: &Algebra, graph: &Graph) -> Result<Vec<Row>, Memory>
    ensures { IfOk result (λ rows. rows.items ≡ spec.eval algebra.now size.width size.names graph.now) }
{
    match algebra {
        Algebra::Bgp(patterns) => evaluate_bgp(alloc, size, patterns.as_slice(), graph),
        Algebra::Join(a, b) => {
            let a = evaluate(alloc, size, a.get(), graph)?;
            let b = evaluate(alloc, size, b.get(), graph)?;
            join_rows(alloc, a.as_slice(), b.as_slice())
        }
        Algebra::Union(a, b) => {
            let a = evaluate(alloc, size, a.get(), graph)?;
            let b = evaluate(alloc, size, b.get(), graph)?;
            both(a, b)
        }
        Algebra::Filter(expr, a) => {
            let a = evaluate(alloc, size, a.get(), graph)?;
            filtered(alloc, expr, a)
        }
        Algebra::LeftJoin(a, b, expr) => {
            let a = evaluate(alloc, size, a.get(), graph)?;
            let b = evaluate(alloc, size, b.get(), graph)?;
            left_join_rows(alloc, expr, a, b.as_slice())
        }
    }
}

fn both(first: Vec<Row>, second: Vec<Row>) -> Result<Vec<Row>, Memory>
    ensures { IfOk result (λ all. all.items ≡ first.items ++ second.items) }
{
    let mut all = first;
    let mut second = second;
    all.append(&mut second)?;
    Ok(all)
}

fn evaluate_bgp(
    alloc: Global,
    size: Size,
    patterns: &[TriplePattern],
    graph: &Graph,
) -> Result<Vec<Row>, Memory>
    ensures { IfOk result (λ rows. rows.items ≡ map (spec.restricted size.names) (all_extended patterns.now graph.now (unbound size.width ∷ []))) }
{
    let mut rows = Vec::new(alloc);
    rows.push(Row::unbound(alloc, size.width)?)?;
    let rows = extend_all(alloc, patterns, graph, rows)?;
    restricted_rows(alloc, size.names, rows)
}

#[tactic(auto, using(crate::proofs::GraphSteps::flat_more))]
fn join_rows(alloc: Global, firsts: &[Row], seconds: &[Row]) -> Result<Vec<Row>, Memory>
    ensures { IfOk result (λ all. all.items ≡ spec.join firsts.now seconds.now) }
{
    let mut all = Vec::new(alloc);
    for first in firsts {
        push_merges(alloc, first, seconds, &mut all)?;
    }
    Ok(all)
}

/// Appends the merges with each compatible row.
#[tactic(auto, using(crate::proofs::GraphSteps::flat_more))]
fn push_merges(alloc: Global, row: &Row, others: &[Row], all: &mut Vec<Row>) -> Result<(), Memory>
    ensures { OnOk result (all.new.items ≡ all.old.items ++ flat_map (spec.joined row.now) others.now) }
{
    for other in others {
        if compatible(row, other) {
            all.push(merge(alloc, row, other)?)?;
        }
    }
    Ok(())
}

/// The rows on which the expression holds.
#[tactic(auto, using(crate::proofs::Loops::filter_push))]
fn filtered(alloc: Global, expr: &Expr, rows: Vec<Row>) -> Result<Vec<Row>, Memory>
    ensures { IfOk result (λ kept. kept.items ≡ filter (spec.holds expr.now) rows.items) }
{
    let mut kept = Vec::new(alloc);
    for row in rows {
        if holds(alloc, expr, &row)? {
            kept.push(row)?;
        }
    }
    Ok(kept)
}

#[tactic(auto, using(crate::proofs::Loops::flat_push))]
fn left_join_rows(
    alloc: Global,
    expr: &Expr,
    firsts: Vec<Row>,
    seconds: &[Row],
) -> Result<Vec<Row>, Memory>
    ensures { IfOk result (λ all. all.items ≡ spec.left_joined (spec.holds expr.now) firsts.items seconds.now) }
{
    let mut all = Vec::new(alloc);
    for first in firsts {
        let mut found = Vec::new(alloc);
        push_merges(alloc, &first, seconds, &mut found)?;
        let kept = filtered(alloc, expr, found)?;
        let mut more = or_alone(alloc, first, kept)?;
        all.append(&mut more)?;
    }
    Ok(all)
}

/// The matches of a row, or the row itself where there is none.
fn or_alone(alloc: Global, first: Row, matches: Vec<Row>) -> Result<Vec<Row>, Memory>
    ensures { IfOk result (λ all. all.items ≡ spec.or_alone first matches.items) }
{
    if !matches.is_empty() {
        return Ok(matches);
    }
    let mut alone = Vec::new(alloc);
    alone.push(first)?;
    Ok(alone)
}

/// The rows without the bindings of blank nodes.
fn restricted_rows(alloc: Global, names: usize, rows: Vec<Row>) -> Result<Vec<Row>, Memory>
    ensures { IfOk result (λ all. all.items ≡ map (spec.restricted names) rows.items) }
{
    let mut all = Vec::new(alloc);
    for row in rows {
        all.push(restricted(names, row))?;
    }
    Ok(all)
}

fn restricted(names: usize, row: Row) -> Row
    ensures { result ≡ spec.restricted names row }
{
    let mut cells = row.into_vec();
    hide(names, cells.as_mut_slice());
    Row::from_vec(cells)
}

#[tactic(auto, using(crate::proofs::Loops::hidden_more, crate::proofs::Loops::restricted_first, crate::proofs::Loops::restricted_last))]
fn hide(names: usize, cells: &mut [Option<Term>])
    ensures { cells.new ≡ spec.restricted names cells.old }
{
    for i in names..cells.len() {
        cells[i] = None;
    }
}

#[tactic(auto, using(crate::proofs::GraphSteps::map_more))]
fn project_rows(alloc: Global, select: &[u16], rows: Vec<Row>) -> Result<Vec<Row>, Memory>
    ensures { IfOk result (λ all. all.items ≡ map (projected select.now) rows.items) }
{
    let mut all = Vec::new(alloc);
    for row in rows {
        all.push(row.project(alloc, select)?)?;
    }
    Ok(all)
}

fn distinct_rows(alloc: Global, distinct: bool, rows: Vec<Row>) -> Result<Vec<Row>, Memory>
    ensures { IfOk result (λ all. all.items ≡ distinct_if distinct rows.items) }
{
    if distinct {
        first_rows(alloc, rows)
    } else {
        Ok(rows)
    }
}

/// The first of each equal rows.
fn first_rows(alloc: Global, rows: Vec<Row>) -> Result<Vec<Row>, Memory>
    ensures { IfOk result (λ all. all.items ≡ once same_row rows.items) }
{
    let set = row_set(alloc, rows)?;
    let firsts = set.into_iter().collect(alloc)?;
    rows_of(alloc, firsts)
}

#[tactic(auto, using(crate::proofs::Loops::once_push))]
fn row_set(alloc: Global, rows: Vec<Row>) -> Result<IndexSet<Seq<Option<Term>>>, Memory>
    ensures { IfOk result (λ set. set.keys ≡ once same_row rows.items) }
{
    let mut set = IndexSet::new(alloc);
    for row in rows {
        set.insert(Seq::from_vec(row.into_vec()))?;
    }
    Ok(set)
}

fn rows_of(alloc: Global, firsts: Vec<Seq<Option<Term>>>) -> Result<Vec<Row>, Memory>
    ensures { IfOk result (λ all. all.items ≡ firsts.items) }
{
    let mut all = Vec::new(alloc);
    for cells in firsts {
        all.push(Row::from_vec(cells.into_vec()))?;
    }
    Ok(all)
}
