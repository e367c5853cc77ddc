ghost use Rattle.std.specs.Prelude.{◌≡◌, ◌<◌, ◌++◌, IfOk, OnOk, All, length, flat_map};
ghost use Rattle.symmetric_join.specs.Joins.{joined, met, rows_at};

use crate::fed::Fed;
use rdf_terms::Memory;
use rows_core::{Row, compatible, merge};
use std::alloc::Global;

fn push_joined(alloc: Global, left: &Row, right: &Row, out: &mut Vec<Row>) -> Result<(), Memory>
    ensures { OnOk result (out.new.items ≡ out.old.items ++ joined left.now right.now) }
{
    if compatible(left, right) {
        out.push(merge(alloc, left, right)?)?;
    }
    Ok(())
}

fn push_met(
    alloc: Global,
    fed: Fed,
    row: &Row,
    other: &Row,
    out: &mut Vec<Row>,
) -> Result<(), Memory>
    ensures { OnOk result (out.new.items ≡ out.old.items ++ met fed row.now other.now) }
{
    match fed {
        Fed::Left => push_joined(alloc, row, other, out),
        Fed::Right => push_joined(alloc, other, row, out),
    }
}

/// The merges of a row with each compatible one of the others, in their order.
#[tactic(auto, using(crate::proofs::Meetings::met_more))]
pub(crate) fn meet_all(
    alloc: Global,
    fed: Fed,
    row: &Row,
    others: &[Row],
) -> Result<Vec<Row>, Memory>
    ensures { IfOk result (λ out. out.items ≡ flat_map (met fed row.now) others.now) }
{
    let mut out = Vec::new(alloc);
    for other in others {
        push_met(alloc, fed, row, other, &mut out)?;
    }
    Ok(out)
}

/// The merges of a row with each compatible one of the others at these places, in the places' order.
#[tactic(auto, using(crate::proofs::Meetings::met_more_at))]
pub(crate) fn meet_at(
    alloc: Global,
    fed: Fed,
    row: &Row,
    others: &[Row],
    places: &[usize],
) -> Result<Vec<Row>, Memory>
    requires { All (λ place. place < length others.now) places.now }
    ensures { IfOk result (λ out. out.items ≡ flat_map (met fed row.now) (rows_at others.now places.now)) }
{
    let mut out = Vec::new(alloc);
    for place in places {
        push_met(alloc, fed, row, &others[*place], &mut out)?;
    }
    Ok(out)
}
