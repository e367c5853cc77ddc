ghost use Rattle.std.specs.Prelude.{◌≡◌, IfOk};
ghost use Rattle.algebra_core.specs.Query.{Answers, solutions};
ghost use Rattle.traverse_core.specs.Query.{AreWide};

use algebra_core::{Query, evaluate_over};
use growing_graph::Graph;
use rdf_terms::Memory;
use rows_core::Row;
use std::alloc::Global;

fn all_rows(alloc: Global, query: &Query, graph: &Graph) -> Result<Vec<Row>, Memory>
    ensures list { IfOk result (λ rows. rows.items ≡ solutions query.now graph.now) }
    ensures answers { IfOk result (λ rows. Answers query.now graph.now rows.items) }
{
    let rows = evaluate_over(alloc, query, graph)?;
    Ok(rows.into_vec())
}

/// The answers to the query over the graph.
pub fn answer_rows(alloc: Global, query: &Query, graph: &Graph) -> Result<Vec<Row>, Memory>
    ensures answers { IfOk result (λ rows. Answers query.now graph.now rows.items) }
    ensures wide { IfOk result (λ rows. AreWide query.now rows.items) }
{
    let rows = all_rows(alloc, query, graph)?;
    Ok(rows)
}
