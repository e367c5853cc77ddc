ghost use Rattle.std.specs.Prelude.{◌≡◌, IfOk, if◌then◌else◌, Some, None, true, false, slice_get};
ghost use Rattle.rows_core.specs.Bindings.{IsBinding};
ghost use Rattle.rows_core.specs.Bindings as spec;

use crate::pattern::{Spot, TriplePattern, have_one};
use crate::row::{Row, copy_cells};
use rdf_terms::{Memory, Term, Triple, is_same_term};
use std::alloc::Global;

/// The row extended by the pattern's variables so that it gives the triple; None exactly where no
/// row that extends it does (SPARQL 1.1 Query Language, section 18.3.1).
///
/// It costs at most six comparisons of terms; the row's cells are copied, with their texts shared,
/// only where the row is extended, and of the triple only the terms that are bound.
pub fn bind(
    alloc: Global,
    pattern: &TriplePattern,
    triple: &Triple,
    row: &Row,
) -> Result<Option<Row>, Memory>
    ensures bound { IfOk result (λ o. o ≡ spec.bound pattern.now triple.now row.now) }
    ensures meaning { IfOk result (λ o. IsBinding pattern.now triple.now row.now o) }
{
    let extended = bind_tested(alloc, pattern, triple, row)?;
    Ok(extended)
}

#[tactic(auto, using(crate::proofs::Bindable::not_bindable))]
fn bind_tested(
    alloc: Global,
    pattern: &TriplePattern,
    triple: &Triple,
    row: &Row,
) -> Result<Option<Row>, Memory>
    ensures { IfOk result (λ o. o ≡ spec.bound pattern.now triple.now row.now) }
{
    if !is_bindable(pattern, triple, row) {
        return Ok(None);
    }
    bind_copy(alloc, pattern, triple, row)
}

fn is_bindable(pattern: &TriplePattern, triple: &Triple, row: &Row) -> bool
    ensures { result ≡ spec.is_bindable pattern.now triple.now row.now }
{
    takes(row, &pattern.s, &triple.s)
        && ((takes(row, &pattern.p, &triple.p)
            && have_one(&pattern.s, &pattern.p, &triple.s, &triple.p))
            && ((takes(row, &pattern.o, &triple.o)
                && have_one(&pattern.s, &pattern.o, &triple.s, &triple.o))
                && have_one(&pattern.p, &pattern.o, &triple.p, &triple.o)))
}

fn takes(row: &Row, spot: &Spot, term: &Term) -> bool
    ensures { result ≡ spec.takes row.now spot.now term.now }
{
    match spot {
        Spot::Term(own) => is_same_term(own, term),
        Spot::Var(var) => cell_takes(row.cells(), *var as usize, term),
    }
}

fn cell_takes(cells: &[Option<Term>], var: usize, term: &Term) -> bool
    ensures { result ≡ spec.cell_takes (slice_get cells.now var) term.now }
{
    if var >= cells.len() {
        return false;
    }
    match &cells[var] {
        None => true,
        Some(own) => is_same_term(own, term),
    }
}

fn bind_copy(
    alloc: Global,
    pattern: &TriplePattern,
    triple: &Triple,
    row: &Row,
) -> Result<Option<Row>, Memory>
    ensures { IfOk result (λ o. o ≡ spec.bound pattern.now triple.now row.now) }
{
    let mut cells = copy_cells(alloc, row.cells())?;
    if !bind_spot(&pattern.s, &triple.s, cells.as_mut_slice())? {
        return Ok(None);
    }
    if !bind_spot(&pattern.p, &triple.p, cells.as_mut_slice())? {
        return Ok(None);
    }
    if !bind_spot(&pattern.o, &triple.o, cells.as_mut_slice())? {
        return Ok(None);
    }
    Ok(Some(Row::from_vec(cells)))
}

fn bind_spot(spot: &Spot, term: &Term, cells: &mut [Option<Term>]) -> Result<bool, Memory>
    ensures { IfOk result (λ b. spec.bound_spot spot.now term.now cells.old ≡ (if b then Some cells.new else None)) }
{
    match spot {
        Spot::Term(own) => Ok(is_same_term(own, term)),
        Spot::Var(var) => bind_cell(cells, *var as usize, term),
    }
}

#[tactic(auto, using(crate::proofs::RowSteps::bound_past, crate::proofs::RowSteps::bound_free, crate::proofs::RowSteps::bound_taken))]
fn bind_cell(cells: &mut [Option<Term>], var: usize, term: &Term) -> Result<bool, Memory>
    ensures { IfOk result (λ b. spec.bound_to var term.now cells.old ≡ (if b then Some cells.new else None)) }
{
    if var >= cells.len() {
        return Ok(false);
    }
    if let Some(own) = &cells[var] {
        return Ok(is_same_term(own, term));
    }
    cells[var] = Some(term.copy()?);
    Ok(true)
}
