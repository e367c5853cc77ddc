//! The next token.
ghost use Rattle.std.specs.Prelude.{◌≡◌, ◌∷◌, option_map, IsTrue};
ghost use Rattle.grammar_model.specs.Parsers.{first_of_list};
ghost use Rattle.turtle_reader.specs.Grammar as grammar;
ghost use Rattle.turtle_reader.specs.Grammar.{FirstIs, Behind, Needed, kind_of, fault_of, rest_of, is_comma, is_dot, is_end, is_iri_ref, is_namespace, is_semicolon, is_shut_paren, is_shut_square};
ghost use Rattle.turtle_reader.specs.declared.token_fault.ResolveError.{ResolveError};

use crate::kind::{Kind, Token};
use crate::token_fault::{Fault, ResolveError};

pub fn first(tokens: &[Token]) -> Option<(&Token, &[Token])>
    ensures { FirstIs tokens.now (option_map (λ x. (x.0.now, x.1.now)) result) }
{
    match tokens {
        [] => None,
        [token, rest @ ..] => Some((token, rest)),
    }
}

/// The fault where the first of the tokens does not fit.
pub fn misfit(stop: Fault, tokens: &[Token]) -> ResolveError
    ensures { result ≡ ResolveError.Fault (fault_of stop tokens.now) }
{
    match tokens {
        [] => ResolveError::Fault(stop),
        [token, ..] => ResolveError::Fault(Fault::Syntax(token.from)),
    }
}

/// Whether the next token can begin a verb.
pub fn begins_verb(tokens: &[Token]) -> bool
    ensures { result ≡ grammar.begins_verb (kind_of (first_of_list tokens.now)) }
{
    match tokens {
        [] => false,
        [token, ..] => matches!(&token.kind, Kind::IriRef(_) | Kind::Name(_) | Kind::A),
    }
}

/// Whether the next token is the text's end.
pub fn is_at_end(tokens: &[Token]) -> bool
    ensures { result ≡ is_end (kind_of (first_of_list tokens.now)) }
{
    match tokens {
        [] => false,
        [token, ..] => matches!(&token.kind, Kind::End),
    }
}

pub fn behind_comma(tokens: &[Token]) -> Option<&[Token]>
    ensures { Behind is_comma Kind.Comma tokens.now (option_map (λ r. r.now) result) }
{
    match tokens {
        [token, rest @ ..] => match &token.kind {
            Kind::Comma => Some(rest),
            _ => None,
        },
        [] => None,
    }
}

pub fn behind_semicolon(tokens: &[Token]) -> Option<&[Token]>
    ensures { Behind is_semicolon Kind.Semicolon tokens.now (option_map (λ r. r.now) result) }
{
    match tokens {
        [token, rest @ ..] => match &token.kind {
            Kind::Semicolon => Some(rest),
            _ => None,
        },
        [] => None,
    }
}

pub fn behind_shut_square(tokens: &[Token]) -> Option<&[Token]>
    ensures { Behind is_shut_square Kind.ShutSquare tokens.now (option_map (λ r. r.now) result) }
{
    match tokens {
        [token, rest @ ..] => match &token.kind {
            Kind::ShutSquare => Some(rest),
            _ => None,
        },
        [] => None,
    }
}

pub fn need_dot(stop: Fault, tokens: &[Token]) -> Result<&[Token], ResolveError>
    ensures { Needed stop is_dot tokens.now (rest_of (λ r. r.now) result) }
{
    match tokens {
        [token, rest @ ..] => match &token.kind {
            Kind::Dot => Ok(rest),
            _ => Err(misfit(stop, tokens)),
        },
        [] => Err(misfit(stop, tokens)),
    }
}

pub fn need_shut_square(stop: Fault, tokens: &[Token]) -> Result<&[Token], ResolveError>
    ensures { Needed stop is_shut_square tokens.now (rest_of (λ r. r.now) result) }
{
    match tokens {
        [token, rest @ ..] => match &token.kind {
            Kind::ShutSquare => Ok(rest),
            _ => Err(misfit(stop, tokens)),
        },
        [] => Err(misfit(stop, tokens)),
    }
}

pub fn need_namespace(stop: Fault, tokens: &[Token]) -> Result<&[Token], ResolveError>
    ensures { Needed stop is_namespace tokens.now (rest_of (λ r. r.now) result) }
{
    match tokens {
        [token, rest @ ..] => match &token.kind {
            Kind::Namespace => Ok(rest),
            _ => Err(misfit(stop, tokens)),
        },
        [] => Err(misfit(stop, tokens)),
    }
}

pub fn need_iri_ref(stop: Fault, tokens: &[Token]) -> Result<&[Token], ResolveError>
    ensures { Needed stop is_iri_ref tokens.now (rest_of (λ r. r.now) result) }
{
    match tokens {
        [token, rest @ ..] => match &token.kind {
            Kind::IriRef(_) => Ok(rest),
            _ => Err(misfit(stop, tokens)),
        },
        [] => Err(misfit(stop, tokens)),
    }
}
