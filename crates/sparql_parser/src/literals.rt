//! Terms of patterns, and literals.

ghost use Rattle.std.specs.Prelude.{◌≡◌, ◌<◌, ◌≤◌, length, IfOk};
ghost use Rattle.sparql_parser.specs.Grammar.{reads, RdfLiteral, SignedNumber, VarOrTerm};
ghost use Rattle.sparql_parser.specs.Views.{Gives};

use crate::tokens::{first, misfit};
use algebra_translation::{boolean, number, plain_text, signed_number, tagged_text, typed_text};
use expr_eval::Sign;
use rdf_terms::{Term, TextBuf};
use rows_core::Spot;
use sparql_resolve::{Fault, Kind, ResolveError, Token};
use std::alloc::Global;

/// The literal of a string, with the tag or the datatype that may stand behind it.
#[tactic(auto, using(crate::proofs::Whole::part_is))]
pub fn parse_literal<'t>(
    alloc: Global,
    stop: Fault,
    text: &TextBuf,
    tokens: &'t [Token],
) -> Result<(Term, &'t [Token]), ResolveError>
    ensures value { Gives (λ x. (x.0, x.1.now)) result (reads stop (RdfLiteral text.now) tokens.now) }
    ensures fewer { IfOk result (λ x. length x.1.now ≤ length tokens.now) }
{
    let Some((token, rest)) = first(tokens) else {
        return Ok((plain_text(alloc, text)?, tokens));
    };
    match &token.kind {
        Kind::Tag(tag) => Ok((tagged_text(alloc, text, tag)?, rest)),
        Kind::Carets => match first(rest) {
            Some((token, after)) => match &token.kind {
                Kind::IriRef(iri) | Kind::Name(iri) => Ok((typed_text(text, iri)?, after)),
                _ => Err(misfit(stop, rest)),
            },
            None => Err(misfit(stop, rest)),
        },
        _ => Ok((plain_text(alloc, text)?, tokens)),
    }
}

// The number behind its sign, which it must touch.
#[tactic(auto, using(crate::proofs::Whole::part_is))]
fn parse_signed<'t>(
    alloc: Global,
    stop: Fault,
    sign: Sign,
    tokens: &'t [Token],
) -> Result<(Spot, &'t [Token]), ResolveError>
    ensures value { Gives (λ x. (x.0, x.1.now)) result (reads stop (SignedNumber sign) tokens.now) }
    ensures fewer { IfOk result (λ x. length x.1.now ≤ length tokens.now) }
{
    let Some((token, rest)) = first(tokens) else {
        return Err(misfit(stop, tokens));
    };
    match &token.kind {
        Kind::Number {
            datatype,
            lexical,
            touches,
        } => {
            if !*touches {
                return Err(misfit(stop, tokens));
            }
            Ok((
                Spot::Term(signed_number(alloc, sign, datatype, lexical)?),
                rest,
            ))
        }
        _ => Err(misfit(stop, tokens)),
    }
}

/// A variable, or a term that does not begin with a bracket.
#[tactic(auto, using(crate::proofs::Whole::part_is))]
pub fn parse_term<'t>(
    alloc: Global,
    stop: Fault,
    tokens: &'t [Token],
) -> Result<(Spot, &'t [Token]), ResolveError>
    ensures value { Gives (λ x. (x.0, x.1.now)) result (reads stop VarOrTerm tokens.now) }
    ensures fewer { IfOk result (λ x. length x.1.now < length tokens.now) }
{
    let Some((token, rest)) = first(tokens) else {
        return Err(misfit(stop, tokens));
    };
    match &token.kind {
        Kind::Var(n) | Kind::Label(n) => Ok((Spot::Var(*n), rest)),
        Kind::IriRef(iri) | Kind::Name(iri) => Ok((Spot::Term(Term::Iri(iri.copy()?)), rest)),
        Kind::Text(text) => {
            let (term, rest) = parse_literal(alloc, stop, text, rest)?;
            Ok((Spot::Term(term), rest))
        }
        Kind::Number {
            datatype,
            lexical,
            ..
        } => Ok((Spot::Term(number(datatype, lexical)?), rest)),
        Kind::Sign(sign) => parse_signed(alloc, stop, *sign, rest),
        Kind::Boolean(truth) => Ok((Spot::Term(boolean(alloc, *truth)?), rest)),
        _ => Err(misfit(stop, tokens)),
    }
}
