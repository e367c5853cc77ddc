//! Triples: subjects, verbs, objects, and what stands in brackets.

ghost use Rattle.std.specs.Prelude.{◌≡◌, ◌≤◌, ◌<◌, ◌∷◌, ◌++◌, [], length, IfOk, OnOk};
ghost use Rattle.rdf_terms.specs.declared.term.Term.{Term};
ghost use Rattle.turtle_reader.specs.Grammar as grammar;
ghost use Rattle.turtle_reader.specs.Grammar.{Gives, reads, Triples, BlankSubject, PredicateObjectList, VerbObjects, ObjectList, Object, BlankObject, RDFLiteral, Collection, Items, Item};
ghost use Rattle.turtle_reader.specs.Vocabulary as vocabulary;

use crate::kind::{Kind, Token};
use crate::next::{
    begins_verb, behind_comma, behind_semicolon, behind_shut_square, first, misfit,
    need_shut_square,
};
use crate::setting::{Setting, iri, typed};
use crate::token_fault::ResolveError;
use rdf_terms::{Memory, Term, TextBuf, Triple};

fn push(out: &mut Vec<Triple>, s: &Term, p: Term, o: Term) -> Result<(), Memory>
    ensures { OnOk result (out.new.items ≡ out.old.items ++ grammar.triple s.now p o ∷ []) }
{
    out.push(Triple { s: s.copy()?, p, o })?;
    Ok(())
}

/// A subject with its predicates and objects; the triples are added to `out`.
#[tactic(auto, using(crate::proofs::Whole::part_is))]
pub fn triples<'t>(
    setting: &Setting,
    out: &mut Vec<Triple>,
    tokens: &'t [Token],
) -> Result<&'t [Token], ResolveError>
    ensures value { Gives (λ x. (out.new.items, x.now)) result (reads setting.now.doc setting.now.stop (Triples out.old.items) tokens.now) }
    ensures fewer { IfOk result (λ x. length x.now < length tokens.now) }
{
    let Some((token, rest)) = first(tokens) else {
        return Err(misfit(setting.stop, tokens));
    };
    match &token.kind {
        Kind::IriRef(i) | Kind::Name(i) => { predicate_object_list(setting, out, &iri(i)?, rest) }
        Kind::Label(n) => predicate_object_list(setting, out, &setting.blank(*n)?, rest),
        Kind::OpenSquare(n) => blank_subject(setting, out, *n, rest),
        Kind::OpenParen => {
            let (s, rest) = collection(setting, out, rest)?;
            predicate_object_list(setting, out, &s, rest)
        }
        _ => Err(misfit(setting.stop, tokens)),
    }
}

// Behind `[` as a subject.
#[tactic(auto, using(crate::proofs::Whole::part_is))]
fn blank_subject<'t>(
    setting: &Setting,
    out: &mut Vec<Triple>,
    n: u64,
    tokens: &'t [Token],
) -> Result<&'t [Token], ResolveError>
    ensures value { Gives (λ x. (out.new.items, x.now)) result (reads setting.now.doc setting.now.stop (BlankSubject n out.old.items) tokens.now) }
    ensures fewer { IfOk result (λ x. length x.now < length tokens.now) }
{
    let s = setting.blank(n)?;
    match behind_shut_square(tokens) {
        Some(rest) => predicate_object_list(setting, out, &s, rest),
        None => {
            let rest = predicate_object_list(setting, out, &s, tokens)?;
            let rest = need_shut_square(setting.stop, rest)?;
            if begins_verb(rest) {
                return predicate_object_list(setting, out, &s, rest);
            }
            Ok(rest)
        }
    }
}

#[tactic(auto, using(crate::proofs::Whole::part_is))]
#[cycle(triples)]
fn predicate_object_list<'t>(
    setting: &Setting,
    out: &mut Vec<Triple>,
    s: &Term,
    tokens: &'t [Token],
) -> Result<&'t [Token], ResolveError>
    ensures value { Gives (λ x. (out.new.items, x.now)) result (reads setting.now.doc setting.now.stop (PredicateObjectList s.now out.old.items) tokens.now) }
    ensures fewer { IfOk result (λ x. length x.now < length tokens.now) }
{
    let mut rest = verb_objects(setting, out, s, tokens)?;
    while let Some(after) = behind_semicolon(rest) {
        rest = if begins_verb(after) {
            verb_objects(setting, out, s, after)?
        } else {
            after
        };
    }
    Ok(rest)
}

// A verb and its objects.
#[tactic(auto, using(crate::proofs::Whole::part_is))]
#[cycle(triples)]
fn verb_objects<'t>(
    setting: &Setting,
    out: &mut Vec<Triple>,
    s: &Term,
    tokens: &'t [Token],
) -> Result<&'t [Token], ResolveError>
    ensures value { Gives (λ x. (out.new.items, x.now)) result (reads setting.now.doc setting.now.stop (VerbObjects s.now out.old.items) tokens.now) }
    ensures fewer { IfOk result (λ x. length x.now < length tokens.now) }
{
    let Some((token, rest)) = first(tokens) else {
        return Err(misfit(setting.stop, tokens));
    };
    match &token.kind {
        Kind::IriRef(i) | Kind::Name(i) => object_list(setting, out, s, &iri(i)?, rest),
        Kind::A => object_list(setting, out, s, &setting.rdf_type()?, rest),
        _ => Err(misfit(setting.stop, tokens)),
    }
}

#[tactic(auto, using(crate::proofs::Whole::part_is))]
#[cycle(triples)]
fn object_list<'t>(
    setting: &Setting,
    out: &mut Vec<Triple>,
    s: &Term,
    p: &Term,
    tokens: &'t [Token],
) -> Result<&'t [Token], ResolveError>
    ensures value { Gives (λ x. (out.new.items, x.now)) result (reads setting.now.doc setting.now.stop (ObjectList s.now p.now out.old.items) tokens.now) }
    ensures fewer { IfOk result (λ x. length x.now < length tokens.now) }
{
    let (o, mut rest) = object(setting, out, tokens)?;
    push(out, s, p.copy()?, o)?;
    while let Some(after) = behind_comma(rest) {
        let (o, left) = object(setting, out, after)?;
        push(out, s, p.copy()?, o)?;
        rest = left;
    }
    Ok(rest)
}

#[tactic(auto, using(crate::proofs::Whole::part_is))]
#[cycle(triples)]
fn object<'t>(
    setting: &Setting,
    out: &mut Vec<Triple>,
    tokens: &'t [Token],
) -> Result<(Term, &'t [Token]), ResolveError>
    ensures value { Gives (λ x. ((out.new.items, x.0), x.1.now)) result (reads setting.now.doc setting.now.stop (Object out.old.items) tokens.now) }
    ensures fewer { IfOk result (λ x. length x.1.now < length tokens.now) }
{
    let Some((token, rest)) = first(tokens) else {
        return Err(misfit(setting.stop, tokens));
    };
    match &token.kind {
        Kind::IriRef(i) | Kind::Name(i) => Ok((iri(i)?, rest)),
        Kind::Label(n) => Ok((setting.blank(*n)?, rest)),
        Kind::OpenSquare(n) => {
            let rest = blank_object(setting, out, *n, rest)?;
            Ok((setting.blank(*n)?, rest))
        }
        Kind::OpenParen => collection(setting, out, rest),
        Kind::Text(lexical) => literal(setting, lexical, rest),
        Kind::Literal { datatype, lexical } => Ok((typed(datatype, lexical)?, rest)),
        _ => Err(misfit(setting.stop, tokens)),
    }
}

// Behind `[` as an object.
#[tactic(auto, using(crate::proofs::Whole::part_is))]
#[cycle(triples)]
fn blank_object<'t>(
    setting: &Setting,
    out: &mut Vec<Triple>,
    n: u64,
    tokens: &'t [Token],
) -> Result<&'t [Token], ResolveError>
    ensures value { Gives (λ x. (out.new.items, x.now)) result (reads setting.now.doc setting.now.stop (BlankObject n out.old.items) tokens.now) }
    ensures fewer { IfOk result (λ x. length x.now < length tokens.now) }
{
    match behind_shut_square(tokens) {
        Some(rest) => Ok(rest),
        None => {
            let rest = predicate_object_list(setting, out, &setting.blank(n)?, tokens)?;
            need_shut_square(setting.stop, rest)
        }
    }
}

// Behind a string.
#[tactic(auto, using(crate::proofs::Whole::part_is))]
fn literal<'t>(
    setting: &Setting,
    lexical: &TextBuf,
    tokens: &'t [Token],
) -> Result<(Term, &'t [Token]), ResolveError>
    ensures value { Gives (λ x. (x.0, x.1.now)) result (reads setting.now.doc setting.now.stop (RDFLiteral lexical.now) tokens.now) }
    ensures fewer { IfOk result (λ x. length x.1.now ≤ length tokens.now) }
{
    let Some((token, rest)) = first(tokens) else {
        return Ok((setting.simple(lexical)?, tokens));
    };
    match &token.kind {
        Kind::Tag(tag) => Ok((setting.tagged(tag, lexical)?, rest)),
        Kind::Carets => typed_literal(setting, lexical, rest),
        _ => Ok((setting.simple(lexical)?, tokens)),
    }
}

// Behind `^^`.
fn typed_literal<'t>(
    setting: &Setting,
    lexical: &TextBuf,
    tokens: &'t [Token],
) -> Result<(Term, &'t [Token]), ResolveError>
    ensures value { Gives (λ x. (x.0, x.1.now)) result (grammar.datatype_read setting.now.doc setting.now.stop lexical.now tokens.now) }
    ensures fewer { IfOk result (λ x. length x.1.now ≤ length tokens.now) }
{
    let Some((token, rest)) = first(tokens) else {
        return Err(misfit(setting.stop, tokens));
    };
    match &token.kind {
        Kind::IriRef(i) | Kind::Name(i) => Ok((typed(i, lexical)?, rest)),
        _ => Err(misfit(setting.stop, tokens)),
    }
}

// Behind `(`.
#[tactic(auto, using(crate::proofs::Whole::part_is))]
#[cycle(triples)]
fn collection<'t>(
    setting: &Setting,
    out: &mut Vec<Triple>,
    tokens: &'t [Token],
) -> Result<(Term, &'t [Token]), ResolveError>
    ensures value { Gives (λ x. ((out.new.items, x.0), x.1.now)) result (reads setting.now.doc setting.now.stop (Collection out.old.items) tokens.now) }
    ensures fewer { IfOk result (λ x. length x.1.now < length tokens.now) }
{
    let Some((token, rest)) = first(tokens) else {
        return Err(misfit(setting.stop, tokens));
    };
    match &token.kind {
        Kind::ShutParen => Ok((setting.nil()?, rest)),
        _ => {
            let rest = items(setting, out, token.cell, tokens)?;
            Ok((setting.blank(token.cell)?, rest))
        }
    }
}

// A cell's rest is the next cell.
fn link(setting: &Setting, out: &mut Vec<Triple>, cell: u64, next: u64) -> Result<(), Memory>
    ensures { OnOk result (out.new.items ≡ out.old.items ++ grammar.triple (grammar.blank setting.now.doc cell) (Term.Iri vocabulary.rdf_rest) (grammar.blank setting.now.doc next) ∷ []) }
{
    let next = setting.blank(next)?;
    push(out, &setting.blank(cell)?, setting.rest()?, next)
}

// The items of a list from the one on that stands next, whose cell has this number.
#[tactic(auto, using(crate::proofs::Whole::part_is))]
#[cycle(triples)]
fn items<'t>(
    setting: &Setting,
    out: &mut Vec<Triple>,
    first_cell: u64,
    tokens: &'t [Token],
) -> Result<&'t [Token], ResolveError>
    ensures value { Gives (λ x. (out.new.items, x.now)) result (reads setting.now.doc setting.now.stop (Items first_cell out.old.items) tokens.now) }
    ensures fewer { IfOk result (λ x. length x.now < length tokens.now) }
{
    let mut cell = first_cell;
    let mut rest = item(setting, out, cell, tokens)?;
    while let Some((token, after)) = first(rest) {
        match &token.kind {
            Kind::ShutParen => {
                push(out, &setting.blank(cell)?, setting.rest()?, setting.nil()?)?;
                return Ok(after);
            }
            _ => {
                link(setting, out, cell, token.cell)?;
                cell = token.cell;
                rest = item(setting, out, cell, rest)?;
            }
        }
    }
    Err(misfit(setting.stop, rest))
}

#[tactic(auto, using(crate::proofs::Whole::part_is))]
#[cycle(triples)]
fn item<'t>(
    setting: &Setting,
    out: &mut Vec<Triple>,
    cell: u64,
    tokens: &'t [Token],
) -> Result<&'t [Token], ResolveError>
    ensures value { Gives (λ x. (out.new.items, x.now)) result (reads setting.now.doc setting.now.stop (Item cell out.old.items) tokens.now) }
    ensures fewer { IfOk result (λ x. length x.now < length tokens.now) }
{
    let (o, rest) = object(setting, out, tokens)?;
    push(out, &setting.blank(cell)?, setting.first()?, o)?;
    Ok(rest)
}
