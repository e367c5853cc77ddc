ghost use Rattle.std.specs.Prelude.{◌≡◌, ◌++◌, IfOk, OnOk};
ghost use Rattle.std.specs.List.{flat_map};
ghost use Rattle.rows_core.specs.Bindings.{extensions};
ghost use Rattle.algebra_core.specs.Graphs.{extended, all_extended};
ghost use Rattle.algebra_core.specs.Substitution.{ArePlaces, extensions_at};

use crate::substitution::substitute;
use growing_graph::Graph;
use rdf_terms::{Memory, Triple};
use rows_core::{Row, TriplePattern, bind};
use std::alloc::Global;

/// The rows extended by each pattern in turn.
#[tactic(auto, using(crate::proofs::Loops::extended_more))]
pub(crate) fn extend_all(
    alloc: Global,
    patterns: &[TriplePattern],
    graph: &Graph,
    rows: Vec<Row>,
) -> Result<Vec<Row>, Memory>
    ensures { IfOk result (λ all. all.items ≡ all_extended patterns.now graph.now rows.items) }
{
    let mut all = rows;
    for pattern in patterns {
        all = extend_rows(alloc, pattern, graph, all.as_slice())?;
    }
    Ok(all)
}

#[tactic(auto, using(crate::proofs::GraphSteps::flat_more))]
fn extend_rows(
    alloc: Global,
    pattern: &TriplePattern,
    graph: &Graph,
    rows: &[Row],
) -> Result<Vec<Row>, Memory>
    ensures { IfOk result (λ all. all.items ≡ extended pattern.now graph.now rows.now) }
{
    let mut all = Vec::new(alloc);
    for row in rows {
        push_extensions(alloc, pattern, graph, row, &mut all)?;
    }
    Ok(all)
}

/// Appends the row's extensions by the graph's triples. Those are tried that match the pattern with
/// the row's terms in it.
#[tactic(auto, using(crate::proofs::Substituting::places_are, crate::proofs::Substituting::extended_there))]
fn push_extensions(
    alloc: Global,
    pattern: &TriplePattern,
    graph: &Graph,
    row: &Row,
    all: &mut Vec<Row>,
) -> Result<(), Memory>
    ensures { OnOk result (all.new.items ≡ all.old.items ++ flat_map (λ t. extensions pattern.now t row.now) graph.now) }
{
    let places = graph.matching(&substitute(pattern, row)?)?;
    push_extensions_at(alloc, pattern, graph, row, places.as_slice(), all)
}

#[tactic(auto, using(crate::proofs::Substituting::place_below, crate::proofs::Substituting::extended_at))]
fn push_extensions_at(
    alloc: Global,
    pattern: &TriplePattern,
    graph: &Graph,
    row: &Row,
    places: &[usize],
    all: &mut Vec<Row>,
) -> Result<(), Memory>
    requires { ArePlaces graph.now places.now }
    ensures { OnOk result (all.new.items ≡ all.old.items ++ flat_map (extensions_at pattern.now graph.now row.now) places.now) }
{
    for place in places {
        push_extension(alloc, pattern, graph.at(*place), row, all)?;
    }
    Ok(())
}

fn push_extension(
    alloc: Global,
    pattern: &TriplePattern,
    triple: &Triple,
    row: &Row,
    all: &mut Vec<Row>,
) -> Result<(), Memory>
    ensures { OnOk result (all.new.items ≡ all.old.items ++ extensions pattern.now triple.now row.now) }
{
    if let Some(more) = bind(alloc, pattern, triple, row)? {
        all.push(more)?;
    }
    Ok(())
}
