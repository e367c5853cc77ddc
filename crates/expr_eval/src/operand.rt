ghost use Rattle.std.specs.Prelude.{◌≡◌, Some, IfOk};
ghost use Rattle.expr_eval.specs.Views.{operand_term, held_term, held_value};
ghost use Rattle.expr_eval.specs.Truth.{compared as compared_terms, truth_of_term, both};
ghost use Rattle.expr_eval.specs.Value as spec;
ghost use Rattle.rdf_terms.specs.Same.{same_term};

use crate::CompareOp;
use crate::making::boolean_term;
use crate::truth::{compared, ebv, number_in};
use rdf_terms::{Memory, Term, is_same_term};
use std::alloc::Global;
use value_core::Number;

/// A term that is lent by an expression or by bindings, or made on the way. So reading a variable
/// copies nothing.
#[derive(Drop)]
pub(crate) enum Operand<'a> {
    Lent(&'a Term),
    Made(Term),
}

impl Operand<'_> {
    pub(crate) fn term(&self) -> &Term
        ensures { result.now ≡ operand_term self.now }
    {
        match self {
            Operand::Lent(term) => term,
            Operand::Made(term) => term,
        }
    }

    pub(crate) fn into_term(self) -> Result<Term, Memory>
        ensures { IfOk result (λ t. t ≡ operand_term self.entry) }
    {
        match self {
            Operand::Lent(term) => term.copy(),
            Operand::Made(term) => Ok(term),
        }
    }
}

/// A value on the way. A truth value is made a term only where one is asked for.
#[derive(Drop)]
pub(crate) enum Held<'a> {
    Truth(bool),
    Whole(Operand<'a>),
}

impl<'a> Held<'a> {
    /// The effective boolean value.
    pub(crate) fn truth(&self) -> Option<bool>
        ensures { result ≡ truth_of_term (held_term self.now) }
    {
        match self {
            Held::Truth(truth) => Some(*truth),
            Held::Whole(operand) => ebv(operand.term()),
        }
    }

    fn number(&self) -> Option<Number>
        ensures { result ≡ spec.number_of_value (Some (held_term self.now)) }
    {
        match self {
            Held::Truth(_) => None,
            Held::Whole(operand) => number_in(operand.term()),
        }
    }

    /// The value as a term to look at.
    pub(crate) fn into_operand(self, alloc: Global) -> Result<Operand<'a>, Memory>
        ensures { IfOk result (λ o. operand_term o ≡ held_term self.entry) }
    {
        match self {
            Held::Truth(truth) => Ok(Operand::Made(boolean_term(alloc, truth)?)),
            Held::Whole(operand) => Ok(operand),
        }
    }
}

/// The effective boolean value, or the type error.
pub(crate) fn truth_of(held: &Option<Held>) -> Option<bool>
    ensures { result ≡ spec.truth_of (held_value held.now) }
{
    match held {
        Some(held) => held.truth(),
        None => None,
    }
}

/// The number, or the type error.
pub(crate) fn number_of(held: &Option<Held>) -> Option<Number>
    ensures { result ≡ spec.number_of_value (held_value held.now) }
{
    match held {
        Some(held) => held.number(),
        None => None,
    }
}

/// Whether the comparison holds of two values, or the type error.
pub(crate) fn compare_held(
    alloc: Global,
    op: CompareOp,
    left: Option<Held>,
    right: Option<Held>,
) -> Result<Option<bool>, Memory>
    ensures { IfOk result (λ t. t ≡
        spec.compared_values (compared_terms op) (held_value left.entry) (held_value right.entry)) }
{
    match (left, right) {
        (Some(left), Some(right)) => {
            let left = left.into_operand(alloc)?;
            let right = right.into_operand(alloc)?;
            Ok(compared(op, left.term(), right.term()))
        }
        _ => Ok(None),
    }
}

/// Whether two values are one term, or the type error.
pub(crate) fn same_held(
    alloc: Global,
    left: Option<Held>,
    right: Option<Held>,
) -> Result<Option<bool>, Memory>
    ensures { IfOk result
        (λ t. t ≡ both same_term (held_value left.entry) (held_value right.entry)) }
{
    match (left, right) {
        (Some(left), Some(right)) => {
            let left = left.into_operand(alloc)?;
            let right = right.into_operand(alloc)?;
            Ok(Some(is_same_term(left.term(), right.term())))
        }
        _ => Ok(None),
    }
}
