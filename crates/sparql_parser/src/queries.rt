//! Whole queries, but for the names of their variables.

ghost use Rattle.std.specs.Prelude.{◌≡◌, ◌≤◌, ◌<◌, [], length, IfOk, option_map};
ghost use Rattle.sparql_parser.specs.Grammar.{reads, key, QueryUnit, SelectQuery, SelectBody, SelectClause, Variables, SolutionModifier, OrderClause, OrderCondition};
ghost use Rattle.sparql_parser.specs.Views.{Gives, view_found};

use crate::exprs::parse_bracketed;
use crate::groups::parse_group;
use crate::tokens::{Terminal, begins_condition, behind, first, misfit, need};
use algebra_core::{Algebra, Key};
use algebra_translation::filtered;
use expr_eval::Expr;
use sparql_resolve::{Fault, Kind, ResolveError, Token};
use std::alloc::Global;

/// What a query says, but for the names of its variables.
#[derive(Drop)]
pub struct Found {
    pub distinct: bool,
    /// The selected variables as they are written, or none for `*`.
    pub select: Option<Vec<u16>>,
    pub body: Algebra,
    pub order: Vec<Key>,
}

fn key_of(expr: Expr, descending: bool) -> Key
    ensures { result ≡ key expr descending }
{
    Key { expr, descending }
}

// A key of ORDER BY.
#[tactic(auto, using(crate::proofs::Whole::part_is))]
fn parse_condition<'t>(
    alloc: Global,
    stop: Fault,
    tokens: &'t [Token],
) -> Result<(Key, &'t [Token]), ResolveError>
    ensures value { Gives (λ x. (x.0, x.1.now)) result (reads stop OrderCondition tokens.now) }
    ensures fewer { IfOk result (λ x. length x.1.now < length tokens.now) }
{
    let Some((token, rest)) = first(tokens) else {
        return Err(misfit(stop, tokens));
    };
    match &token.kind {
        Kind::Var(n) => Ok((key_of(Expr::Var(*n), false), rest)),
        Kind::OpenParen => {
            let (expr, rest) = parse_bracketed(alloc, stop, tokens)?;
            Ok((key_of(expr, false), rest))
        }
        Kind::Asc => {
            let (expr, rest) = parse_bracketed(alloc, stop, rest)?;
            Ok((key_of(expr, false), rest))
        }
        Kind::Desc => {
            let (expr, rest) = parse_bracketed(alloc, stop, rest)?;
            Ok((key_of(expr, true), rest))
        }
        _ => Err(misfit(stop, tokens)),
    }
}

// The keys behind ORDER BY.
#[tactic(auto, using(crate::proofs::Whole::part_is))]
fn parse_conditions<'t>(
    alloc: Global,
    stop: Fault,
    tokens: &'t [Token],
) -> Result<(Vec<Key>, &'t [Token]), ResolveError>
    ensures value { Gives (λ x. (x.0.items, x.1.now)) result (reads stop OrderClause tokens.now) }
{
    let mut all = Vec::new(alloc);
    let (key, mut rest) = parse_condition(alloc, stop, tokens)?;
    all.push(key)?;
    'conditions: while begins_condition(rest) {
        let (key, left) = parse_condition(alloc, stop, rest)?;
        all.push(key)?;
        rest = left;
    }
    Ok((all, rest))
}

// What is behind the pattern.
#[tactic(auto, using(crate::proofs::Whole::part_is))]
fn parse_modifier<'t>(
    alloc: Global,
    stop: Fault,
    tokens: &'t [Token],
) -> Result<(Vec<Key>, &'t [Token]), ResolveError>
    ensures value { Gives (λ x. (x.0.items, x.1.now)) result (reads stop SolutionModifier tokens.now) }
{
    match behind(Terminal::Order, tokens) {
        Some(rest) => {
            let rest = need(stop, Terminal::By, rest)?;
            let (keys, rest) = parse_conditions(alloc, stop, rest)?;
            let rest = need(stop, Terminal::End, rest)?;
            Ok((keys, rest))
        }
        None => {
            let rest = need(stop, Terminal::End, tokens)?;
            Ok((Vec::new(alloc), rest))
        }
    }
}

#[tactic(auto, using(crate::proofs::Whole::part_is))]
fn parse_variables<'t>(
    alloc: Global,
    stop: Fault,
    tokens: &'t [Token],
) -> Result<(Vec<u16>, &'t [Token]), ResolveError>
    ensures value { Gives (λ x. (x.0.items, x.1.now)) result (reads stop (Variables []) tokens.now) }
{
    let mut all = Vec::new(alloc);
    let mut rest = tokens;
    while let Some((token, after)) = first(rest) {
        match &token.kind {
            Kind::Var(n) => all.push(*n)?,
            _ => return Ok((all, rest)),
        }
        rest = after;
    }
    Ok((all, rest))
}

// Which variables are selected.
#[tactic(auto, using(crate::proofs::Whole::part_is))]
fn parse_select_clause<'t>(
    alloc: Global,
    stop: Fault,
    tokens: &'t [Token],
) -> Result<(Option<Vec<u16>>, &'t [Token]), ResolveError>
    ensures value { Gives (λ x. (option_map (λ all. all.items) x.0, x.1.now)) result (reads stop SelectClause tokens.now) }
{
    let Some((token, rest)) = first(tokens) else {
        return Err(misfit(stop, tokens));
    };
    match &token.kind {
        Kind::Var(_) => {
            let (all, rest) = parse_variables(alloc, stop, tokens)?;
            Ok((Some(all), rest))
        }
        Kind::Star => Ok((None, rest)),
        _ => Err(misfit(stop, tokens)),
    }
}

// What is behind SELECT and DISTINCT.
#[tactic(auto, using(crate::proofs::Whole::part_is))]
fn parse_select_body<'t>(
    alloc: Global,
    stop: Fault,
    distinct: bool,
    tokens: &'t [Token],
) -> Result<(Found, &'t [Token]), ResolveError>
    ensures value { Gives (λ x. (view_found x.0, x.1.now)) result (reads stop (SelectBody distinct) tokens.now) }
{
    let (select, rest) = parse_select_clause(alloc, stop, tokens)?;
    let rest = match behind(Terminal::Where, rest) {
        Some(after) => after,
        None => rest,
    };
    let (group, rest) = parse_group(alloc, stop, rest)?;
    let body = filtered(alloc, group)?;
    let (order, rest) = parse_modifier(alloc, stop, rest)?;
    Ok((
        Found {
            distinct,
            select,
            body,
            order,
        },
        rest,
    ))
}

// What is behind SELECT.
#[tactic(auto, using(crate::proofs::Whole::part_is))]
fn parse_select<'t>(
    alloc: Global,
    stop: Fault,
    tokens: &'t [Token],
) -> Result<(Found, &'t [Token]), ResolveError>
    ensures value { Gives (λ x. (view_found x.0, x.1.now)) result (reads stop SelectQuery tokens.now) }
{
    match behind(Terminal::Distinct, tokens) {
        Some(rest) => parse_select_body(alloc, stop, true, rest),
        None => parse_select_body(alloc, stop, false, tokens),
    }
}

/// The whole query.
#[tactic(auto, using(crate::proofs::Whole::part_is))]
pub fn parse_query<'t>(
    alloc: Global,
    stop: Fault,
    tokens: &'t [Token],
) -> Result<(Found, &'t [Token]), ResolveError>
    ensures value { Gives (λ x. (view_found x.0, x.1.now)) result (reads stop QueryUnit tokens.now) }
{
    let mut rest = tokens;
    while let Some((token, after)) = first(rest) {
        match &token.kind {
            Kind::Base => rest = need(stop, Terminal::IriRef, after)?,
            Kind::Prefix => {
                let after = need(stop, Terminal::Namespace, after)?;
                rest = need(stop, Terminal::IriRef, after)?;
            }
            Kind::Select => return parse_select(alloc, stop, after),
            _ => return Err(misfit(stop, rest)),
        }
    }
    Err(misfit(stop, rest))
}
