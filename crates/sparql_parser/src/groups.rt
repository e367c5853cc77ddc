//! Groups.

ghost use Rattle.std.specs.Prelude.{◌≡◌, ◌≤◌, ◌<◌, length, IfOk, IfErr};
ghost use Rattle.algebra_translation.specs.Translation.{PartialGroup as HeldStage};
ghost use Rattle.algebra_translation.specs.Views.{view, view_group};
ghost use Rattle.sparql_parser.specs.Grammar.{reads, GroupGraphPattern, GroupGraphPatternSub, TriplesOrElements, Elements, AfterElement, Filter, OptionalGraphPattern, GroupElement, GroupOrUnionGraphPattern, MoreGroups};
ghost use Rattle.sparql_parser.specs.Views.{Gives, Fails, then_of};

use crate::exprs::parse_constraint;
use crate::tokens::{Terminal, begins_term, behind, first, misfit, need};
use crate::triples::parse_triples;
use algebra_core::Algebra;
use algebra_translation::{
    Group, PartialGroup, empty_group, filtered, finish_group, united, with_filter, with_group,
    with_option,
};
use sparql_resolve::{Fault, Kind, ResolveError, Token};
use std::alloc::Global;

/// What came of an element.
#[derive(Drop)]
pub enum Step {
    /// The group ends.
    Closed(Group),
    More(PartialGroup),
}

// The triples that may stand here.
#[tactic(auto, using(crate::proofs::Whole::part_is))]
fn with_triples<'t>(
    alloc: Global,
    stop: Fault,
    stage: PartialGroup,
    tokens: &'t [Token],
) -> Result<(PartialGroup, &'t [Token]), ResolveError>
    ensures value { IfOk result (λ x. reads stop (TriplesOrElements (view stage)) tokens.now ≡ reads stop (Elements (view x.0)) x.1.now) }
    ensures fault { IfErr result (λ e. Fails e (reads stop (TriplesOrElements (view stage)) tokens.now)) }
    ensures fewer { IfOk result (λ x. length x.1.now ≤ length tokens.now) }
{
    if !begins_term(tokens) {
        return Ok((stage, tokens));
    }
    let PartialGroup {
        algebra,
        patterns,
        filters,
    } = stage;
    let mut patterns = patterns;
    let rest = parse_triples(alloc, stop, &mut patterns, tokens)?;
    Ok((
        PartialGroup {
            algebra,
            patterns,
            filters,
        },
        rest,
    ))
}

// What is behind the dot that may stand behind an element.
#[tactic(auto, using(crate::proofs::Whole::part_is))]
fn behind_element(tokens: &[Token]) -> &[Token]
    ensures value { (stop : Fault) → (s : HeldStage) → reads stop (AfterElement s) tokens.now ≡ reads stop (TriplesOrElements s) result.now }
    ensures fewer { length result.now ≤ length tokens.now }
{
    match behind(Terminal::Dot, tokens) {
        Some(rest) => rest,
        None => tokens,
    }
}

// What is behind FILTER.
#[tactic(auto, using(crate::proofs::Whole::part_is))]
fn parse_filter<'t>(
    alloc: Global,
    stop: Fault,
    stage: PartialGroup,
    tokens: &'t [Token],
) -> Result<(PartialGroup, &'t [Token]), ResolveError>
    ensures value { IfOk result (λ x. reads stop (Filter (view stage)) tokens.now ≡ reads stop (AfterElement (view x.0)) x.1.now) }
    ensures fault { IfErr result (λ e. Fails e (reads stop (Filter (view stage)) tokens.now)) }
    ensures fewer { IfOk result (λ x. length x.1.now ≤ length tokens.now) }
{
    let (expr, rest) = parse_constraint(alloc, stop, tokens)?;
    Ok((with_filter(stage, expr)?, rest))
}

/// A group.
#[tactic(auto, using(crate::proofs::Whole::part_is))]
#[cycle(group)]
pub fn parse_group<'t>(
    alloc: Global,
    stop: Fault,
    tokens: &'t [Token],
) -> Result<(Group, &'t [Token]), ResolveError>
    ensures value { Gives (λ x. (view_group x.0, x.1.now)) result (reads stop GroupGraphPattern tokens.now) }
    ensures fewer { IfOk result (λ x. length x.1.now < length tokens.now) }
{
    let rest = need(stop, Terminal::OpenBrace, tokens)?;
    parse_inside(alloc, stop, rest)
}

// What is behind a group's brace.
#[tactic(auto, using(crate::proofs::Whole::part_is))]
#[cycle(group)]
fn parse_inside<'t>(
    alloc: Global,
    stop: Fault,
    tokens: &'t [Token],
) -> Result<(Group, &'t [Token]), ResolveError>
    ensures value { Gives (λ x. (view_group x.0, x.1.now)) result (reads stop GroupGraphPatternSub tokens.now) }
    ensures fewer { IfOk result (λ x. length x.1.now ≤ length tokens.now) }
{
    let mut stage = empty_group(alloc);
    let mut rest = tokens;
    'elements: loop {
        let (ready, left) = with_triples(alloc, stop, stage, rest)?;
        let (step, left) = parse_element(alloc, stop, ready, left)?;
        match step {
            Step::Closed(group) => return Ok((group, left)),
            Step::More(next) => {
                stage = next;
                rest = behind_element(left);
            }
        }
    }
}

// A filter, an optional group, groups by UNION, or the end of the group.
#[tactic(auto, using(crate::proofs::Whole::part_is))]
#[cycle(group)]
fn parse_element<'t>(
    alloc: Global,
    stop: Fault,
    stage: PartialGroup,
    tokens: &'t [Token],
) -> Result<(Step, &'t [Token]), ResolveError>
    ensures value { IfOk result (λ x. reads stop (Elements (view stage)) tokens.now ≡ then_of stop x.0 x.1.now) }
    ensures fault { IfErr result (λ e. Fails e (reads stop (Elements (view stage)) tokens.now)) }
    ensures fewer { IfOk result (λ x. length x.1.now < length tokens.now) }
{
    let Some((token, rest)) = first(tokens) else {
        return Err(misfit(stop, tokens));
    };
    match &token.kind {
        Kind::ShutBrace => Ok((Step::Closed(finish_group(alloc, stage)?), rest)),
        Kind::Filter => {
            let (stage, rest) = parse_filter(alloc, stop, stage, rest)?;
            Ok((Step::More(stage), rest))
        }
        Kind::Optional => {
            let (stage, rest) = parse_optional(alloc, stop, stage, rest)?;
            Ok((Step::More(stage), rest))
        }
        Kind::OpenBrace => {
            let (stage, rest) = parse_groups(alloc, stop, stage, rest)?;
            Ok((Step::More(stage), rest))
        }
        _ => Err(misfit(stop, tokens)),
    }
}

// What is behind OPTIONAL.
#[tactic(auto, using(crate::proofs::Whole::part_is))]
#[cycle(group)]
fn parse_optional<'t>(
    alloc: Global,
    stop: Fault,
    stage: PartialGroup,
    tokens: &'t [Token],
) -> Result<(PartialGroup, &'t [Token]), ResolveError>
    ensures value { IfOk result (λ x. reads stop (OptionalGraphPattern (view stage)) tokens.now ≡ reads stop (AfterElement (view x.0)) x.1.now) }
    ensures fault { IfErr result (λ e. Fails e (reads stop (OptionalGraphPattern (view stage)) tokens.now)) }
    ensures fewer { IfOk result (λ x. length x.1.now ≤ length tokens.now) }
{
    let (group, rest) = parse_group(alloc, stop, tokens)?;
    Ok((with_option(alloc, stage, group)?, rest))
}

// What is behind the brace of a group in a group.
#[tactic(auto, using(crate::proofs::Whole::part_is))]
#[cycle(group)]
fn parse_groups<'t>(
    alloc: Global,
    stop: Fault,
    stage: PartialGroup,
    tokens: &'t [Token],
) -> Result<(PartialGroup, &'t [Token]), ResolveError>
    ensures value { IfOk result (λ x. reads stop (GroupElement (view stage)) tokens.now ≡ reads stop (AfterElement (view x.0)) x.1.now) }
    ensures fault { IfErr result (λ e. Fails e (reads stop (GroupElement (view stage)) tokens.now)) }
    ensures fewer { IfOk result (λ x. length x.1.now ≤ length tokens.now) }
{
    let (all, rest) = parse_union(alloc, stop, tokens)?;
    Ok((with_group(alloc, stage, all)?, rest))
}

// The same, with those that UNION adds.
#[tactic(auto, using(crate::proofs::Whole::part_is))]
#[cycle(group)]
fn parse_union<'t>(
    alloc: Global,
    stop: Fault,
    tokens: &'t [Token],
) -> Result<(Algebra, &'t [Token]), ResolveError>
    ensures value { Gives (λ x. (x.0, x.1.now)) result (reads stop GroupOrUnionGraphPattern tokens.now) }
    ensures fewer { IfOk result (λ x. length x.1.now ≤ length tokens.now) }
{
    let (group, rest) = parse_inside(alloc, stop, tokens)?;
    let left = filtered(alloc, group)?;
    parse_more_groups(alloc, stop, left, rest)
}

// The groups of a union behind the first.
#[tactic(auto, using(crate::proofs::Whole::part_is))]
#[cycle(group)]
fn parse_more_groups<'t>(
    alloc: Global,
    stop: Fault,
    left: Algebra,
    tokens: &'t [Token],
) -> Result<(Algebra, &'t [Token]), ResolveError>
    ensures value { Gives (λ x. (x.0, x.1.now)) result (reads stop (MoreGroups left) tokens.now) }
    ensures fewer { IfOk result (λ x. length x.1.now ≤ length tokens.now) }
{
    let mut all = left;
    let mut rest = tokens;
    while let Some(after) = behind(Terminal::Union, rest) {
        let (group, next) = parse_group(alloc, stop, after)?;
        let right = filtered(alloc, group)?;
        all = united(alloc, all, right)?;
        rest = next;
    }
    Ok((all, rest))
}
