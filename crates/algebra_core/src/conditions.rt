ghost use Rattle.std.specs.Prelude.{◌≡◌, IfOk, slice_get};
ghost use Rattle.std.specs.Option.{option_copied};
ghost use Rattle.rows_core.specs.Rows.{cell_or_unbound};
ghost use Rattle.expr_eval.specs.Value as value;
ghost use Rattle.algebra_core.specs.Meaning as spec;

use expr_eval::{Env, Evaluated, Expr, evaluate, evaluate_truth};
use rdf_terms::{Memory, Term};
use rows_core::Row;
use std::alloc::Global;

/// A row as the bindings that an expression looks at.
#[derive(Debug, Drop)]
struct RowBindings<'a> {
    row: &'a Row,
}

impl Env for RowBindings<'_> {
    ghost use Rattle.algebra_core.specs.Meaning.{bindings_of};

    ghost bindings = { λ e. bindings_of e.row.now };

    fn get(&self, var: u16) -> Option<&Term> {
        cell_at(self.row.cells(), var as usize)
    }
}

/// The term of a cell, if there is one.
pub(crate) fn cell_at(cells: &[Option<Term>], place: usize) -> Option<&Term>
    ensures { option_copied result ≡ cell_or_unbound (slice_get cells.now place) }
{
    if place < cells.len() {
        cells[place].as_ref()
    } else {
        None
    }
}

/// The value of the expression on the row; None is the type error.
#[tactic(auto, using(crate::proofs::ValuesOnRows::value_given, crate::proofs::ValuesOnRows::error_given))]
pub(crate) fn value_on(alloc: Global, expr: &Expr, row: &Row) -> Result<Option<Term>, Memory>
    ensures { IfOk result (λ v. v ≡ value.value_of expr.now (spec.bindings_of row.now)) }
{
    match evaluate(alloc, expr, &RowBindings { row })? {
        Evaluated::Value(term) => Ok(Some(term)),
        Evaluated::TypeError => Ok(None),
    }
}

/// Whether the expression is true on the row. A type error is not.
pub(crate) fn holds(alloc: Global, expr: &Expr, row: &Row) -> Result<bool, Memory>
    ensures { IfOk result (λ b. b ≡ spec.holds expr.now row.now) }
{
    Ok(is_true(evaluate_truth(alloc, expr, &RowBindings { row })?))
}

fn is_true(truth: Option<bool>) -> bool
    ensures { result ≡ value.is_true truth }
{
    match truth {
        Some(truth) => truth,
        None => false,
    }
}
