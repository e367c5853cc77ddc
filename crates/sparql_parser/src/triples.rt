//! Triples of a basic graph pattern, in the order in which they are read.

ghost use Rattle.std.specs.Prelude.{◌≡◌, ◌≤◌, ◌<◌, length, IfOk};
ghost use Rattle.sparql_parser.specs.Grammar.{reads, TriplesBlock, TriplesSameSubject, BlankSubject, PropertyList, VerbObjects, ObjectList, Object, BlankObject, triple};
ghost use Rattle.sparql_parser.specs.Views.{Gives};

use crate::literals::parse_term;
use crate::tokens::{Terminal, begins_term, begins_verb, behind, first, misfit, need};
use algebra_translation::type_iri;
use rdf_terms::{Memory, Term};
use rows_core::{Spot, TriplePattern};
use sparql_resolve::{Fault, Kind, ResolveError, Token};
use std::alloc::Global;

/// The triples that stand together; they are added to `out`.
#[tactic(auto, using(crate::proofs::Whole::part_is))]
pub fn parse_triples<'t>(
    alloc: Global,
    stop: Fault,
    out: &mut Vec<TriplePattern>,
    tokens: &'t [Token],
) -> Result<&'t [Token], ResolveError>
    ensures value { Gives (λ x. (out.new.items, x.now)) result (reads stop (TriplesBlock out.old.items) tokens.now) }
    ensures fewer { IfOk result (λ x. length x.now < length tokens.now) }
{
    let mut rest = parse_same_subject(alloc, stop, out, tokens)?;
    while let Some(after) = behind(Terminal::Dot, rest) {
        if !begins_term(after) {
            return Ok(after);
        }
        rest = parse_same_subject(alloc, stop, out, after)?;
    }
    Ok(rest)
}

// A subject with its verbs and their objects.
#[tactic(auto, using(crate::proofs::Whole::part_is))]
fn parse_same_subject<'t>(
    alloc: Global,
    stop: Fault,
    out: &mut Vec<TriplePattern>,
    tokens: &'t [Token],
) -> Result<&'t [Token], ResolveError>
    ensures value { Gives (λ x. (out.new.items, x.now)) result (reads stop (TriplesSameSubject out.old.items) tokens.now) }
    ensures fewer { IfOk result (λ x. length x.now < length tokens.now) }
{
    if let Some((token, rest)) = first(tokens) {
        if let Kind::OpenSquare(n) = &token.kind {
            return parse_blank_subject(alloc, stop, out, *n, rest);
        }
    }
    let (subject, rest) = parse_term(alloc, stop, tokens)?;
    parse_properties(alloc, stop, out, &subject, rest)
}

// What is behind the bracket of a subject.
#[tactic(auto, using(crate::proofs::Whole::part_is))]
fn parse_blank_subject<'t>(
    alloc: Global,
    stop: Fault,
    out: &mut Vec<TriplePattern>,
    variable: u16,
    tokens: &'t [Token],
) -> Result<&'t [Token], ResolveError>
    ensures value { Gives (λ x. (out.new.items, x.now)) result (reads stop (BlankSubject variable out.old.items) tokens.now) }
    ensures fewer { IfOk result (λ x. length x.now < length tokens.now) }
{
    let subject = Spot::Var(variable);
    match behind(Terminal::ShutSquare, tokens) {
        Some(rest) => parse_properties(alloc, stop, out, &subject, rest),
        None => {
            let rest = parse_properties(alloc, stop, out, &subject, tokens)?;
            let rest = need(stop, Terminal::ShutSquare, rest)?;
            if begins_verb(rest) {
                return parse_properties(alloc, stop, out, &subject, rest);
            }
            Ok(rest)
        }
    }
}

#[tactic(auto, using(crate::proofs::Whole::part_is))]
#[cycle(properties)]
fn parse_properties<'t>(
    alloc: Global,
    stop: Fault,
    out: &mut Vec<TriplePattern>,
    subject: &Spot,
    tokens: &'t [Token],
) -> Result<&'t [Token], ResolveError>
    ensures value { Gives (λ x. (out.new.items, x.now)) result (reads stop (PropertyList subject.now out.old.items) tokens.now) }
    ensures fewer { IfOk result (λ x. length x.now < length tokens.now) }
{
    let mut rest = parse_verb(alloc, stop, out, subject, tokens)?;
    while let Some(after) = behind(Terminal::Semicolon, rest) {
        rest = if begins_verb(after) {
            parse_verb(alloc, stop, out, subject, after)?
        } else {
            after
        };
    }
    Ok(rest)
}

// A verb and its objects.
#[tactic(auto, using(crate::proofs::Whole::part_is))]
#[cycle(properties)]
fn parse_verb<'t>(
    alloc: Global,
    stop: Fault,
    out: &mut Vec<TriplePattern>,
    subject: &Spot,
    tokens: &'t [Token],
) -> Result<&'t [Token], ResolveError>
    ensures value { Gives (λ x. (out.new.items, x.now)) result (reads stop (VerbObjects subject.now out.old.items) tokens.now) }
    ensures fewer { IfOk result (λ x. length x.now < length tokens.now) }
{
    let Some((token, rest)) = first(tokens) else {
        return Err(misfit(stop, tokens));
    };
    match &token.kind {
        Kind::Var(n) => parse_objects(alloc, stop, out, subject, &Spot::Var(*n), rest),
        Kind::IriRef(iri) | Kind::Name(iri) => {
            let verb = Spot::Term(Term::Iri(iri.copy()?));
            parse_objects(alloc, stop, out, subject, &verb, rest)
        }
        Kind::A => {
            let verb = Spot::Term(type_iri(alloc)?);
            parse_objects(alloc, stop, out, subject, &verb, rest)
        }
        _ => Err(misfit(stop, tokens)),
    }
}

#[tactic(auto, using(crate::proofs::Whole::part_is))]
#[cycle(properties)]
fn parse_objects<'t>(
    alloc: Global,
    stop: Fault,
    out: &mut Vec<TriplePattern>,
    subject: &Spot,
    verb: &Spot,
    tokens: &'t [Token],
) -> Result<&'t [Token], ResolveError>
    ensures value { Gives (λ x. (out.new.items, x.now)) result (reads stop (ObjectList subject.now verb.now out.old.items) tokens.now) }
    ensures fewer { IfOk result (λ x. length x.now < length tokens.now) }
{
    let (object, mut rest) = parse_object(alloc, stop, out, tokens)?;
    out.push(pattern(subject, verb, object)?)?;
    while let Some(after) = behind(Terminal::Comma, rest) {
        let (object, left) = parse_object(alloc, stop, out, after)?;
        out.push(pattern(subject, verb, object)?)?;
        rest = left;
    }
    Ok(rest)
}

fn pattern(subject: &Spot, verb: &Spot, object: Spot) -> Result<TriplePattern, Memory>
    ensures { IfOk result (λ t. t ≡ triple subject.now verb.now object) }
{
    Ok(TriplePattern {
        s: subject.copy()?,
        p: verb.copy()?,
        o: object,
    })
}

#[tactic(auto, using(crate::proofs::Whole::part_is))]
#[cycle(properties)]
fn parse_object<'t>(
    alloc: Global,
    stop: Fault,
    out: &mut Vec<TriplePattern>,
    tokens: &'t [Token],
) -> Result<(Spot, &'t [Token]), ResolveError>
    ensures value { Gives (λ x. ((out.new.items, x.0), x.1.now)) result (reads stop (Object out.old.items) tokens.now) }
    ensures fewer { IfOk result (λ x. length x.1.now < length tokens.now) }
{
    if let Some((token, rest)) = first(tokens) {
        if let Kind::OpenSquare(n) = &token.kind {
            return parse_blank_object(alloc, stop, out, *n, rest);
        }
    }
    parse_term(alloc, stop, tokens)
}

// What is behind the bracket of an object.
#[tactic(auto, using(crate::proofs::Whole::part_is))]
#[cycle(properties)]
fn parse_blank_object<'t>(
    alloc: Global,
    stop: Fault,
    out: &mut Vec<TriplePattern>,
    variable: u16,
    tokens: &'t [Token],
) -> Result<(Spot, &'t [Token]), ResolveError>
    ensures value { Gives (λ x. ((out.new.items, x.0), x.1.now)) result (reads stop (BlankObject variable out.old.items) tokens.now) }
    ensures fewer { IfOk result (λ x. length x.1.now < length tokens.now) }
{
    if let Some(rest) = behind(Terminal::ShutSquare, tokens) {
        return Ok((Spot::Var(variable), rest));
    }
    let node = Spot::Var(variable);
    let rest = parse_properties(alloc, stop, out, &node, tokens)?;
    let rest = need(stop, Terminal::ShutSquare, rest)?;
    Ok((node, rest))
}
