//! All tokens of a text.

ghost use Rattle.std.specs.Prelude.{◌≡◌, All, IfOk, length};
ghost use Rattle.turtle_lexer.specs.Tokens.{HasSpan};
ghost use Rattle.turtle_reader.specs.Resolving as spec;

use crate::kind::Token;
use crate::state::Resolver;
use crate::token_fault::{Fault, ResolveError};
use rdf_terms::Memory;
use std::alloc::Global;
use turtle_lexer::Token as Lexed;

/// The tokens of a text up to the first that nothing may take.
#[derive(Debug, Drop)]
pub struct Resolved {
    pub tokens: Vec<Token>,
    /// What is wrong behind these tokens.
    pub stop: Fault,
}

// A resolver at the beginning of a text.
fn begun(alloc: Global, base: &str) -> Result<Resolver, Memory>
    ensures { IfOk result (λ s. spec.view s ≡ spec.begin base.now) }
{
    match Resolver::new(alloc, base) {
        Ok(resolver) => Ok(resolver),
        Err(_) => Err(Memory),
    }
}

/// The tokens of the text, which the lexer gave, with what they stand for, where this is the base at
/// the beginning.
pub fn resolve(
    alloc: Global,
    base: &str,
    bytes: &[u8],
    tokens: &[Lexed],
) -> Result<Resolved, Memory>
    requires { All (HasSpan (length bytes.now)) tokens.now }
    ensures { IfOk result (λ s. spec.resolved s ≡ spec.resolving base.now bytes.now tokens.now) }
{
    let mut resolver = begun(alloc, base)?;
    let mut out = Vec::new(alloc);
    for token in tokens {
        let cell = resolver.blanks;
        match resolver.step(&bytes[token.from..token.to], *token) {
            Ok(kind) => out.push(Token {
                kind,
                from: token.from,
                cell,
            })?,
            Err(ResolveError::Memory) => return Err(Memory),
            Err(ResolveError::Fault(stop)) => return Ok(Resolved { tokens: out, stop }),
        }
    }
    Ok(Resolved {
        tokens: out,
        stop: Fault::Syntax(bytes.len()),
    })
}
