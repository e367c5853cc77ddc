//! All tokens of a query.

ghost use Rattle.std.specs.Prelude.{◌≡◌, ◌≤◌, ◌<◌, ◌+◌, ◌^◌, [], All, IfOk, OnOk, length, min, slice_range};
ghost use Rattle.sparql_lexer.specs.Tokens.{HasSpan};
ghost use Rattle.sparql_resolve.specs.Resolving as spec;

use crate::fault::{Fault, ResolveError};
use crate::kind::Token;
use crate::names::{MOST_NAMES, Names, copy_names};
use crate::state::Resolver;
use rdf_terms::{Memory, Seq, TextBuf};
use sparql_lexer::{QueryKind, QueryToken};
use std::alloc::Global;
use terminals::variable_text;

/// The tokens of a query up to the first that nothing may take.
#[derive(Debug, Drop)]
pub struct Resolved {
    /// The names of its variables, in the order of their first appearance.
    pub names: Seq<TextBuf>,
    /// How many variables it has, with its blank nodes.
    pub width: u16,
    pub tokens: Seq<Token>,
    /// What is wrong behind these tokens.
    pub stop: Fault,
}

/// Tokens, the fault behind them if there is one, and how many variables blank nodes have made.
#[derive(Drop)]
pub struct Passed {
    pub tokens: Vec<Token>,
    pub stop: Option<Fault>,
    pub blanks: u16,
}

fn add_name(alloc: Global, names: &mut Names, bytes: &[u8], token: QueryToken) -> Result<(), Memory>
    requires { HasSpan (length bytes.now) token }
    ensures { OnOk result (names.new ≡ spec.name_from token.kind (spec.bytes_of bytes.now token) names.old) }
{
    if let QueryKind::Var = token.kind {
        if let Some(name) = variable_text(alloc, &bytes[token.from..token.to])? {
            names.add(name)?;
        }
    }
    Ok(())
}

fn names_of(alloc: Global, bytes: &[u8], tokens: &[QueryToken]) -> Result<Names, Memory>
    requires { All (HasSpan (length bytes.now)) tokens.now }
    ensures { IfOk result (λ n. n ≡ spec.names_from [] bytes.now tokens.now) }
{
    let mut names = Names::new(alloc);
    for token in tokens {
        add_name(alloc, &mut names, bytes, *token)?;
    }
    Ok(names)
}

// The tokens up to the first fault.
fn pass(alloc: Global, names: &Names, bytes: &[u8], tokens: &[QueryToken]) -> Result<Passed, Memory>
    requires { All (HasSpan (length bytes.now)) tokens.now }
    ensures { IfOk result (λ p. spec.passed p ≡ spec.resolve_from names.now bytes.now spec.begin [] tokens.now) }
{
    let mut resolver = Resolver::new(alloc);
    let mut out = Vec::new(alloc);
    for token in tokens {
        let blanks = resolver.blanks;
        match resolver.step(names, &bytes[token.from..token.to], *token) {
            Ok(kind) => out.push(Token {
                kind,
                from: token.from,
            })?,
            Err(ResolveError::Memory) => return Err(Memory),
            Err(ResolveError::Fault(fault)) => {
                return Ok(Passed {
                    tokens: out,
                    stop: Some(fault),
                    blanks,
                });
            }
        }
    }
    Ok(Passed {
        tokens: out,
        stop: None,
        blanks: resolver.blanks,
    })
}

fn width_of(names: usize, blanks: u16) -> u16
    requires { names < 2 ^ 63 }
    ensures { result ≡ min (names + blanks) 65535 }
{
    (names + blanks as usize).min(MOST_NAMES) as u16
}

/// The tokens of the text, which the lexer gave, with what they stand for.
pub fn resolve(alloc: Global, text: &str, tokens: &[QueryToken]) -> Result<Resolved, Memory>
    requires { All (HasSpan (length text.now)) tokens.now }
    ensures resolved { IfOk result (spec.IsResolved text.now tokens.now) }
    ensures few { IfOk result (λ s. length s.names ≤ 65535) }
{
    let bytes = text.as_bytes();
    let names = names_of(alloc, bytes, tokens)?;
    let Passed {
        tokens: passed,
        stop,
        blanks,
    } = pass(alloc, &names, bytes, tokens)?;
    Ok(Resolved {
        names: copy_names(alloc, names.as_slice())?,
        width: width_of(names.len(), blanks),
        tokens: Seq::from_vec(passed),
        stop: stop.unwrap_or(Fault::Syntax(bytes.len())),
    })
}
