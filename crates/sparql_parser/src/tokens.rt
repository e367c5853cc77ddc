//! The tokens that are left, and what is at their beginning.

ghost use Rattle.std.specs.Prelude.{◌≡◌, option_map};
ghost use Rattle.grammar_model.specs.Parsers.{first_of_list};
ghost use Rattle.sparql_parser.specs.Grammar as grammar;
ghost use Rattle.sparql_parser.specs.Grammar.{is_terminal, fault_of, kind_of};
ghost use Rattle.sparql_parser.specs.Views.{FirstIs, Behind, Needed, rest_of};

use expr_eval::Sign;
use sparql_resolve::{Fault, Kind, ResolveError, Token};

/// A kind of token that the grammar wants at a place.
#[derive(Clone, Copy)]
pub enum Terminal {
    IriRef,
    Namespace,
    Distinct,
    Where,
    Order,
    By,
    End,
    OpenBrace,
    Union,
    Dot,
    Semicolon,
    Comma,
    ShutSquare,
    OpenParen,
    ShutParen,
    Or,
    And,
}

impl Terminal {
    #[tactic(auto, unfolding(crate::specs::Grammar::is_terminal))]
    fn is(self, kind: &Kind) -> bool
        ensures { result ≡ is_terminal self kind.now }
    {
        match self {
            Terminal::IriRef => matches!(kind, Kind::IriRef(_)),
            Terminal::Namespace => matches!(kind, Kind::Namespace),
            Terminal::Distinct => matches!(kind, Kind::Distinct),
            Terminal::Where => matches!(kind, Kind::Where),
            Terminal::Order => matches!(kind, Kind::Order),
            Terminal::By => matches!(kind, Kind::By),
            Terminal::End => matches!(kind, Kind::End),
            Terminal::OpenBrace => matches!(kind, Kind::OpenBrace),
            Terminal::Union => matches!(kind, Kind::Union),
            Terminal::Dot => matches!(kind, Kind::Dot),
            Terminal::Semicolon => matches!(kind, Kind::Semicolon),
            Terminal::Comma => matches!(kind, Kind::Comma),
            Terminal::ShutSquare => matches!(kind, Kind::ShutSquare),
            Terminal::OpenParen => matches!(kind, Kind::OpenParen),
            Terminal::ShutParen => matches!(kind, Kind::ShutParen),
            Terminal::Or => matches!(kind, Kind::Or),
            Terminal::And => matches!(kind, Kind::And),
        }
    }
}

/// The first token, and those behind it.
pub fn first(tokens: &[Token]) -> Option<(&Token, &[Token])>
    ensures { FirstIs tokens.now (option_map (λ x. (x.0.now, x.1.now)) result) }
{
    match tokens {
        [] => None,
        [token, rest @ ..] => Some((token, rest)),
    }
}

fn is_unsupported(kind: &Kind) -> bool
    ensures { result ≡ grammar.is_unsupported kind.now }
{
    matches!(
        kind,
        Kind::Star
            | Kind::Sign(Sign::Plus)
            | Kind::Bang
            | Kind::OpenParen
            | Kind::Select
            | Kind::Unsupported
    )
}

/// The fault where the first token does not fit; `stop` is that behind all tokens.
pub fn misfit(stop: Fault, tokens: &[Token]) -> ResolveError
    ensures { result ≡ ResolveError.Fault (fault_of stop tokens.now) }
{
    match tokens {
        [] => ResolveError::Fault(stop),
        [token, ..] => {
            if is_unsupported(&token.kind) {
                ResolveError::Fault(Fault::Unsupported(token.from))
            } else {
                ResolveError::Fault(Fault::Syntax(token.from))
            }
        }
    }
}

/// The tokens behind the terminal, where it is the first.
#[tactic(auto, using(crate::proofs::Nothing::no_terminal))]
pub fn behind(terminal: Terminal, tokens: &[Token]) -> Option<&[Token]>
    ensures { Behind (is_terminal terminal) tokens.now (option_map (λ r. r.now) result) }
{
    match tokens {
        [token, rest @ ..] => {
            if terminal.is(&token.kind) {
                Some(rest)
            } else {
                None
            }
        }
        [] => None,
    }
}

/// The tokens behind the terminal, which must be the first.
#[tactic(auto, using(crate::proofs::Nothing::no_terminal))]
pub fn need<'t>(
    stop: Fault,
    terminal: Terminal,
    tokens: &'t [Token],
) -> Result<&'t [Token], ResolveError>
    ensures { Needed stop (is_terminal terminal) tokens.now (rest_of (λ r. r.now) result) }
{
    match tokens {
        [token, rest @ ..] => {
            if terminal.is(&token.kind) {
                Ok(rest)
            } else {
                Err(misfit(stop, tokens))
            }
        }
        [] => Err(misfit(stop, tokens)),
    }
}

/// Whether a key of ORDER BY begins here.
pub fn begins_condition(tokens: &[Token]) -> bool
    ensures { result ≡ grammar.begins_condition (kind_of (first_of_list tokens.now)) }
{
    match tokens {
        [] => false,
        [token, ..] => matches!(
            &token.kind,
            Kind::Var(_) | Kind::OpenParen | Kind::Asc | Kind::Desc
        ),
    }
}

/// Whether a verb begins here.
pub fn begins_verb(tokens: &[Token]) -> bool
    ensures { result ≡ grammar.begins_verb (kind_of (first_of_list tokens.now)) }
{
    match tokens {
        [] => false,
        [token, ..] => matches!(
            &token.kind,
            Kind::Var(_) | Kind::IriRef(_) | Kind::Name(_) | Kind::A
        ),
    }
}

/// Whether a subject or an object begins here.
pub fn begins_term(tokens: &[Token]) -> bool
    ensures { result ≡ grammar.begins_term (kind_of (first_of_list tokens.now)) }
{
    match tokens {
        [] => false,
        [token, ..] => matches!(
            &token.kind,
            Kind::Var(_)
                | Kind::IriRef(_)
                | Kind::Name(_)
                | Kind::Label(_)
                | Kind::OpenSquare(_)
                | Kind::Text(_)
                | Kind::Number { .. }
                | Kind::Sign(_)
                | Kind::Boolean(_)
        ),
    }
}
