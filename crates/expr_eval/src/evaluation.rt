ghost use Rattle.std.specs.Prelude.{◌≡◌, IfOk, Some, fold, map, not, option_map};
ghost use Rattle.std.specs.Option.{option_and_then, option_copied};
ghost use Rattle.expr_eval.specs.Views.{evaluated, held_value};
ghost use Rattle.expr_eval.specs.Value as spec;

use crate::calls::called;
use crate::making::number_term;
use crate::operand::{Held, Operand, compare_held, number_of, same_held, truth_of};
use crate::{Env, Expr, Function, Sign};
use rdf_terms::{Memory, Seq, Term};
use std::alloc::Global;
use value_core::{Number, add, sub};

/// What an expression comes to.
#[derive(Debug, Drop)]
pub enum Evaluated {
    Value(Term),
    TypeError,
}

/// The value of the expression under the bindings, or the type error.
pub fn evaluate<E: Env>(alloc: Global, expr: &Expr, env: &E) -> Result<Evaluated, Memory>
    ensures { IfOk result (λ v. v ≡ evaluated (spec.value_of expr.now (E.bindings env.now))) }
{
    match value_of(alloc, expr, env)? {
        Some(held) => Ok(Evaluated::Value(held.into_operand(alloc)?.into_term()?)),
        None => Ok(Evaluated::TypeError),
    }
}

/// The effective boolean value of what the expression comes to, or the type error. It is `ebv` of
/// what `evaluate` answers, but makes no term for a truth value.
pub fn evaluate_truth<E: Env>(alloc: Global, expr: &Expr, env: &E) -> Result<Option<bool>, Memory>
    ensures { IfOk result (λ t. t ≡ spec.truth_of (spec.value_of expr.now (E.bindings env.now))) }
{
    Ok(truth_of(&value_of(alloc, expr, env)?))
}

fn with_sign(sign: Sign, a: Number, b: Number) -> Option<Number>
    ensures { result ≡ spec.signed_sum sign a b }
{
    match sign {
        Sign::Plus => add(a, b),
        Sign::Minus => sub(a, b),
    }
}

fn with_operand(total: Option<Number>, sign: Sign, operand: Option<Number>) -> Option<Number>
    ensures { result ≡ spec.with_operand total (sign, operand) }
{
    match (total, operand) {
        (Some(total), Some(operand)) => with_sign(sign, total, operand),
        _ => None,
    }
}

fn signed(sign: Sign, operand: Option<Number>) -> Option<Number>
    ensures { result ≡ spec.with_operand (Some spec.zero_number) (sign, operand) }
{
    let zero = Number {
        scaled: 0,
        whole: true,
    };
    with_operand(Some(zero), sign, operand)
}

fn from_number<'a>(alloc: Global, number: Option<Number>) -> Result<Option<Held<'a>>, Memory>
    ensures { IfOk result (λ v. held_value v ≡ spec.of_number number) }
{
    match number {
        Some(number) => Ok(Some(Held::Whole(Operand::Made(number_term(alloc, number)?)))),
        None => Ok(None),
    }
}

fn from_truth<'a>(truth: Option<bool>) -> Option<Held<'a>>
    ensures { held_value result ≡ spec.of_truth truth }
{
    match truth {
        Some(truth) => Some(Held::Truth(truth)),
        None => None,
    }
}

fn lent(term: Option<&Term>) -> Option<Held<'_>>
    ensures { held_value result ≡ option_copied term.entry }
{
    match term {
        Some(term) => Some(Held::Whole(Operand::Lent(term))),
        None => None,
    }
}

fn negated(truth: Option<bool>) -> Option<bool>
    ensures { result ≡ option_map not truth }
{
    match truth {
        Some(truth) => Some(!truth),
        None => None,
    }
}

fn call_held<'a>(
    alloc: Global,
    function: Function,
    held: Option<Held>,
) -> Result<Option<Held<'a>>, Memory>
    ensures { IfOk result
        (λ v. held_value v ≡ option_and_then (spec.called function) (held_value held.entry)) }
{
    match held {
        Some(held) => called(alloc, function, held.into_operand(alloc)?),
        None => Ok(None),
    }
}

#[cycle(evaluation)]
fn value_of<'a, E: Env>(
    alloc: Global,
    expr: &'a Expr,
    env: &'a E,
) -> Result<Option<Held<'a>>, Memory>
    ensures { IfOk result (λ v. held_value v ≡ spec.value_of expr.now (E.bindings env.now)) }
{
    match expr {
        Expr::Var(var) => Ok(lent(env.get(*var))),
        Expr::Constant(term) => Ok(lent(Some(term))),
        Expr::Or(parts) => Ok(from_truth(any_of(alloc, parts, env)?)),
        Expr::And(parts) => Ok(from_truth(all_of(alloc, parts, env)?)),
        Expr::Not(of) => Ok(from_truth(negated(truth_of(&value_of(alloc, of.get(), env)?)))),
        Expr::Compare { op, left, right } => {
            let left = value_of(alloc, left.get(), env)?;
            let right = value_of(alloc, right.get(), env)?;
            Ok(from_truth(compare_held(alloc, *op, left, right)?))
        }
        Expr::Sum { first, rest } => {
            let first = number_of(&value_of(alloc, first.get(), env)?);
            from_number(alloc, sum_of(alloc, first, rest, env)?)
        }
        Expr::Signed { sign, of } => {
            let number = number_of(&value_of(alloc, of.get(), env)?);
            from_number(alloc, signed(*sign, number))
        }
        Expr::Bound(var) => Ok(Some(Held::Truth(env.get(*var).is_some()))),
        Expr::Call { function, of } => call_held(alloc, *function, value_of(alloc, of.get(), env)?),
        Expr::SameTerm { left, right } => {
            let left = value_of(alloc, left.get(), env)?;
            let right = value_of(alloc, right.get(), env)?;
            Ok(from_truth(same_held(alloc, left, right)?))
        }
    }
}

/// True where a part is true, else the error where one is the error, else false. Parts after a true
/// one are not looked at.
#[cycle(evaluation)]
fn any_of<E: Env>(alloc: Global, parts: &Seq<Expr>, env: &E) -> Result<Option<bool>, Memory>
    ensures { IfOk result (λ t. t ≡ spec.any_of
        (map (λ part. spec.truth_of (spec.value_of part (E.bindings env.now))) parts.now)) }
{
    let mut sound = true;
    for part in parts.as_slice() {
        match truth_of(&value_of(alloc, part, env)?) {
            Some(true) => return Ok(Some(true)),
            Some(false) => {}
            None => sound = false,
        }
    }
    Ok(sound.then_some(false))
}

/// False where a part is false, else the error where one is the error, else true. Parts after a
/// false one are not looked at.
#[cycle(evaluation)]
fn all_of<E: Env>(alloc: Global, parts: &Seq<Expr>, env: &E) -> Result<Option<bool>, Memory>
    ensures { IfOk result (λ t. t ≡ spec.all_of
        (map (λ part. spec.truth_of (spec.value_of part (E.bindings env.now))) parts.now)) }
{
    let mut sound = true;
    for part in parts.as_slice() {
        match truth_of(&value_of(alloc, part, env)?) {
            Some(false) => return Ok(Some(false)),
            Some(true) => {}
            None => sound = false,
        }
    }
    Ok(sound.then_some(true))
}

/// The sum from the left; once it is the error it stays so.
#[cycle(evaluation)]
fn sum_of<E: Env>(
    alloc: Global,
    first: Option<Number>,
    rest: &Seq<(Sign, Expr)>,
    env: &E,
) -> Result<Option<Number>, Memory>
    ensures { IfOk result (λ n. n ≡ fold spec.with_operand first
        (map (λ part. (part.0, spec.number_of_value (spec.value_of part.1 (E.bindings env.now))))
        rest.now)) }
{
    let mut total = first;
    for operand in rest.as_slice() {
        let number = number_of(&value_of(alloc, &operand.1, env)?);
        total = with_operand(total, operand.0, number);
    }
    Ok(total)
}
