ghost use Rattle.std.specs.Prelude.{◌≡◌, ◌↔◌, IfOk, IsTrue, true, length};
ghost use Rattle.rows_core.specs.Rows.{Compatible, Merges};
ghost use Rattle.rows_core.specs.Rows as spec;

use crate::row::{Row, copy_cell};
use rdf_terms::{Memory, Term, is_same_term};
use std::alloc::Global;

/// Whether the rows have one width and agree on each variable that both bind (SPARQL 1.1 Query
/// Language, section 18.3). It costs at most a comparison of terms a cell. No memory.
pub fn compatible(a: &Row, b: &Row) -> bool
    ensures test { result ≡ spec.fits a.now b.now }
    ensures meaning { IsTrue result ↔ Compatible a.now b.now }
{
    is_fit(a, b)
}

#[tactic(auto, using(crate::proofs::RowSteps::no_fit))]
fn is_fit(a: &Row, b: &Row) -> bool
    ensures { result ≡ spec.fits a.now b.now }
{
    if a.cells().len() != b.cells().len() {
        return false;
    }
    cells_agree(a.cells(), b.cells())
}

fn cells_agree(a: &[Option<Term>], b: &[Option<Term>]) -> bool
    requires { length a.now ≡ length b.now }
    ensures { result ≡ spec.fits a.now b.now }
{
    for i in 0..a.len() {
        if !agree(&a[i], &b[i]) {
            return false;
        }
    }
    true
}

fn agree(a: &Option<Term>, b: &Option<Term>) -> bool
    ensures { result ≡ spec.agrees a.now b.now }
{
    match (a, b) {
        (Some(x), Some(y)) => is_same_term(x, y),
        _ => true,
    }
}

/// The row with the bindings of both (SPARQL 1.1 Query Language, section 18.3). It costs a copy of
/// each cell, with its texts shared.
pub fn merge(alloc: Global, a: &Row, b: &Row) -> Result<Row, Memory>
    requires { spec.fits a.now b.now ≡ true }
    ensures merged { IfOk result (λ r. r ≡ spec.merged a.now b.now) }
    ensures meaning { IfOk result (λ r. Merges a.now b.now r) }
{
    let row = merge_rows(alloc, a, b)?;
    Ok(row)
}

#[tactic(auto, using(crate::proofs::RowSteps::fit_lengths))]
fn merge_rows(alloc: Global, a: &Row, b: &Row) -> Result<Row, Memory>
    requires { spec.fits a.now b.now ≡ true }
    ensures { IfOk result (λ r. r ≡ spec.merged a.now b.now) }
{
    let cells = merge_cells(alloc, a.cells(), b.cells())?;
    Ok(Row::from_vec(cells))
}

fn merge_cells(
    alloc: Global,
    a: &[Option<Term>],
    b: &[Option<Term>],
) -> Result<Vec<Option<Term>>, Memory>
    requires { length a.now ≡ length b.now }
    ensures { IfOk result (λ cells. cells.items ≡ spec.merged a.now b.now) }
{
    let mut cells = Vec::new(alloc);
    for i in 0..a.len() {
        cells.push(copy_first(&a[i], &b[i])?)?;
    }
    Ok(cells)
}

fn copy_first(a: &Option<Term>, b: &Option<Term>) -> Result<Option<Term>, Memory>
    ensures { IfOk result (λ c. c ≡ spec.first_bound a.now b.now) }
{
    match a {
        Some(_) => copy_cell(a),
        None => copy_cell(b),
    }
}
