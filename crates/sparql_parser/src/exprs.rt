//! Expressions.

ghost use Rattle.std.specs.Prelude.{◌≡◌, ◌<◌, ◌≤◌, length, IfOk};
ghost use Rattle.sparql_parser.specs.Grammar.{reads, Expression, OrOperands, ConditionalAnd, AndOperands, Relational, Additive, Operands, Unary, Primary, Bracketed, BoundVariable, TermPair, Constraint};
ghost use Rattle.sparql_parser.specs.Views.{Gives};

use crate::literals::parse_literal;
use crate::tokens::{Terminal, behind, first, misfit, need};
use algebra_translation::{
    all_of, any_of, boolean, called, compared, negated, number, same_term, signed, sum_of,
};
use expr_eval::{Expr, Sign};
use rdf_terms::Term;
use sparql_resolve::{Fault, Kind, ResolveError, Token};
use std::alloc::Global;

#[tactic(auto, using(crate::proofs::Whole::part_is))]
#[cycle(expression)]
fn parse_expression<'t>(
    alloc: Global,
    stop: Fault,
    tokens: &'t [Token],
) -> Result<(Expr, &'t [Token]), ResolveError>
    ensures value { Gives (λ x. (x.0, x.1.now)) result (reads stop Expression tokens.now) }
    ensures fewer { IfOk result (λ x. length x.1.now < length tokens.now) }
{
    let (expr, rest) = parse_and(alloc, stop, tokens)?;
    match behind(Terminal::Or, rest) {
        Some(after) => parse_more_or(alloc, stop, expr, after),
        None => Ok((expr, rest)),
    }
}

// The operands of `||` behind the first.
#[tactic(auto, using(crate::proofs::Whole::part_is))]
#[cycle(expression)]
fn parse_more_or<'t>(
    alloc: Global,
    stop: Fault,
    first: Expr,
    tokens: &'t [Token],
) -> Result<(Expr, &'t [Token]), ResolveError>
    ensures value { Gives (λ x. (x.0, x.1.now)) result (reads stop (OrOperands first) tokens.now) }
    ensures fewer { IfOk result (λ x. length x.1.now < length tokens.now) }
{
    let mut all = Vec::new(alloc);
    all.push(first)?;
    let (second, mut rest) = parse_and(alloc, stop, tokens)?;
    all.push(second)?;
    while let Some(after) = behind(Terminal::Or, rest) {
        let (expr, left) = parse_and(alloc, stop, after)?;
        all.push(expr)?;
        rest = left;
    }
    Ok((any_of(all), rest))
}

#[tactic(auto, using(crate::proofs::Whole::part_is))]
#[cycle(expression)]
fn parse_and<'t>(
    alloc: Global,
    stop: Fault,
    tokens: &'t [Token],
) -> Result<(Expr, &'t [Token]), ResolveError>
    ensures value { Gives (λ x. (x.0, x.1.now)) result (reads stop ConditionalAnd tokens.now) }
    ensures fewer { IfOk result (λ x. length x.1.now < length tokens.now) }
{
    let (expr, rest) = parse_relational(alloc, stop, tokens)?;
    match behind(Terminal::And, rest) {
        Some(after) => parse_more_and(alloc, stop, expr, after),
        None => Ok((expr, rest)),
    }
}

// The operands of `&&` behind the first.
#[tactic(auto, using(crate::proofs::Whole::part_is))]
#[cycle(expression)]
fn parse_more_and<'t>(
    alloc: Global,
    stop: Fault,
    first: Expr,
    tokens: &'t [Token],
) -> Result<(Expr, &'t [Token]), ResolveError>
    ensures value { Gives (λ x. (x.0, x.1.now)) result (reads stop (AndOperands first) tokens.now) }
    ensures fewer { IfOk result (λ x. length x.1.now < length tokens.now) }
{
    let mut all = Vec::new(alloc);
    all.push(first)?;
    let (second, mut rest) = parse_relational(alloc, stop, tokens)?;
    all.push(second)?;
    while let Some(after) = behind(Terminal::And, rest) {
        let (expr, left) = parse_relational(alloc, stop, after)?;
        all.push(expr)?;
        rest = left;
    }
    Ok((all_of(all), rest))
}

#[tactic(auto, using(crate::proofs::Whole::part_is))]
#[cycle(expression)]
fn parse_relational<'t>(
    alloc: Global,
    stop: Fault,
    tokens: &'t [Token],
) -> Result<(Expr, &'t [Token]), ResolveError>
    ensures value { Gives (λ x. (x.0, x.1.now)) result (reads stop Relational tokens.now) }
    ensures fewer { IfOk result (λ x. length x.1.now < length tokens.now) }
{
    let (left, rest) = parse_additive(alloc, stop, tokens)?;
    if let Some((token, after)) = first(rest) {
        if let Kind::Compare(op) = &token.kind {
            let (right, rest) = parse_additive(alloc, stop, after)?;
            return Ok((compared(alloc, *op, left, right)?, rest));
        }
    }
    Ok((left, rest))
}

#[tactic(auto, using(crate::proofs::Whole::part_is))]
#[cycle(expression)]
fn parse_additive<'t>(
    alloc: Global,
    stop: Fault,
    tokens: &'t [Token],
) -> Result<(Expr, &'t [Token]), ResolveError>
    ensures value { Gives (λ x. (x.0, x.1.now)) result (reads stop Additive tokens.now) }
    ensures fewer { IfOk result (λ x. length x.1.now < length tokens.now) }
{
    let (expr, rest) = parse_unary(alloc, stop, tokens)?;
    if let Some((token, after)) = first(rest) {
        if let Kind::Sign(sign) = &token.kind {
            let (more, rest) = parse_operands(alloc, stop, *sign, after)?;
            return Ok((sum_of(alloc, expr, more)?, rest));
        }
    }
    Ok((expr, rest))
}

// The operands of a sum behind the first sign, with their signs.
#[tactic(auto, using(crate::proofs::Whole::part_is))]
#[cycle(expression)]
fn parse_operands<'t>(
    alloc: Global,
    stop: Fault,
    sign: Sign,
    tokens: &'t [Token],
) -> Result<(Vec<(Sign, Expr)>, &'t [Token]), ResolveError>
    ensures value { Gives (λ x. (x.0.items, x.1.now)) result (reads stop (Operands sign) tokens.now) }
    ensures fewer { IfOk result (λ x. length x.1.now < length tokens.now) }
{
    let mut all = Vec::new(alloc);
    let (operand, mut rest) = parse_unary(alloc, stop, tokens)?;
    all.push((sign, operand))?;
    while let Some((token, after)) = first(rest) {
        match &token.kind {
            Kind::Sign(sign) => {
                let (operand, left) = parse_unary(alloc, stop, after)?;
                all.push((*sign, operand))?;
                rest = left;
            }
            _ => return Ok((all, rest)),
        }
    }
    Ok((all, rest))
}

#[tactic(auto, using(crate::proofs::Whole::part_is))]
#[cycle(expression)]
fn parse_unary<'t>(
    alloc: Global,
    stop: Fault,
    tokens: &'t [Token],
) -> Result<(Expr, &'t [Token]), ResolveError>
    ensures value { Gives (λ x. (x.0, x.1.now)) result (reads stop Unary tokens.now) }
    ensures fewer { IfOk result (λ x. length x.1.now < length tokens.now) }
{
    let Some((token, rest)) = first(tokens) else {
        return Err(misfit(stop, tokens));
    };
    match &token.kind {
        Kind::Bang => {
            let (expr, rest) = parse_primary(alloc, stop, rest)?;
            Ok((negated(alloc, expr)?, rest))
        }
        Kind::Sign(sign) => {
            let (expr, rest) = parse_primary(alloc, stop, rest)?;
            Ok((signed(alloc, *sign, expr)?, rest))
        }
        _ => parse_primary(alloc, stop, tokens),
    }
}

#[tactic(auto, using(crate::proofs::Whole::part_is))]
#[cycle(expression)]
fn parse_primary<'t>(
    alloc: Global,
    stop: Fault,
    tokens: &'t [Token],
) -> Result<(Expr, &'t [Token]), ResolveError>
    ensures value { Gives (λ x. (x.0, x.1.now)) result (reads stop Primary tokens.now) }
    ensures fewer { IfOk result (λ x. length x.1.now < length tokens.now) }
{
    let Some((token, rest)) = first(tokens) else {
        return Err(misfit(stop, tokens));
    };
    match &token.kind {
        Kind::OpenParen => parse_bracketed(alloc, stop, tokens),
        Kind::Bound => parse_bound(stop, rest),
        Kind::SameTerm => parse_same_term(alloc, stop, rest),
        Kind::Function(function) => {
            let (expr, rest) = parse_bracketed(alloc, stop, rest)?;
            Ok((called(alloc, *function, expr)?, rest))
        }
        Kind::IriRef(iri) | Kind::Name(iri) => Ok((Expr::Constant(Term::Iri(iri.copy()?)), rest)),
        Kind::Text(text) => {
            let (term, rest) = parse_literal(alloc, stop, text, rest)?;
            Ok((Expr::Constant(term), rest))
        }
        Kind::Number {
            datatype,
            lexical,
            ..
        } => Ok((Expr::Constant(number(datatype, lexical)?), rest)),
        Kind::Boolean(truth) => Ok((Expr::Constant(boolean(alloc, *truth)?), rest)),
        Kind::Var(n) => Ok((Expr::Var(*n), rest)),
        _ => Err(misfit(stop, tokens)),
    }
}

// What is behind BOUND.
#[tactic(auto, using(crate::proofs::Whole::part_is))]
fn parse_bound<'t>(stop: Fault, tokens: &'t [Token]) -> Result<(Expr, &'t [Token]), ResolveError>
    ensures value { Gives (λ x. (x.0, x.1.now)) result (reads stop BoundVariable tokens.now) }
    ensures fewer { IfOk result (λ x. length x.1.now ≤ length tokens.now) }
{
    let rest = need(stop, Terminal::OpenParen, tokens)?;
    let Some((token, after)) = first(rest) else {
        return Err(misfit(stop, rest));
    };
    match &token.kind {
        Kind::Var(n) => {
            let rest = need(stop, Terminal::ShutParen, after)?;
            Ok((Expr::Bound(*n), rest))
        }
        _ => Err(misfit(stop, rest)),
    }
}

// What is behind SAMETERM.
#[tactic(auto, using(crate::proofs::Whole::part_is))]
#[cycle(expression)]
fn parse_same_term<'t>(
    alloc: Global,
    stop: Fault,
    tokens: &'t [Token],
) -> Result<(Expr, &'t [Token]), ResolveError>
    ensures value { Gives (λ x. (x.0, x.1.now)) result (reads stop TermPair tokens.now) }
    ensures fewer { IfOk result (λ x. length x.1.now ≤ length tokens.now) }
{
    let rest = need(stop, Terminal::OpenParen, tokens)?;
    let (left, rest) = parse_expression(alloc, stop, rest)?;
    let rest = need(stop, Terminal::Comma, rest)?;
    let (right, rest) = parse_expression(alloc, stop, rest)?;
    let rest = need(stop, Terminal::ShutParen, rest)?;
    Ok((same_term(alloc, left, right)?, rest))
}

/// An expression in round brackets.
#[tactic(auto, using(crate::proofs::Whole::part_is))]
#[cycle(expression)]
pub fn parse_bracketed<'t>(
    alloc: Global,
    stop: Fault,
    tokens: &'t [Token],
) -> Result<(Expr, &'t [Token]), ResolveError>
    ensures value { Gives (λ x. (x.0, x.1.now)) result (reads stop Bracketed tokens.now) }
    ensures fewer { IfOk result (λ x. length x.1.now < length tokens.now) }
{
    let rest = need(stop, Terminal::OpenParen, tokens)?;
    let (expr, rest) = parse_expression(alloc, stop, rest)?;
    let rest = need(stop, Terminal::ShutParen, rest)?;
    Ok((expr, rest))
}

/// The condition of a filter.
#[tactic(auto, using(crate::proofs::Whole::part_is))]
pub fn parse_constraint<'t>(
    alloc: Global,
    stop: Fault,
    tokens: &'t [Token],
) -> Result<(Expr, &'t [Token]), ResolveError>
    ensures value { Gives (λ x. (x.0, x.1.now)) result (reads stop Constraint tokens.now) }
    ensures fewer { IfOk result (λ x. length x.1.now < length tokens.now) }
{
    let Some((token, _)) = first(tokens) else {
        return Err(misfit(stop, tokens));
    };
    match &token.kind {
        Kind::OpenParen => parse_bracketed(alloc, stop, tokens),
        Kind::Bound | Kind::SameTerm | Kind::Function(_) => parse_primary(alloc, stop, tokens),
        _ => Err(misfit(stop, tokens)),
    }
}
