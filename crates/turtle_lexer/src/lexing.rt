//! The list of all tokens.

ghost use Rattle.std.specs.Prelude.{◌≡◌, ◌≤◌, length, drop, All, IfOk};
ghost use Rattle.terminals.specs.Utf8.{symbols_of};
ghost use Rattle.turtle_lexer.specs.State.{HasNoPrefixedName};
ghost use Rattle.turtle_lexer.specs.Tokens as spec;

use crate::dialect::Dialect;
use crate::kind::TurtleKind;
use crate::scan::longest;
use crate::token::Token;
use rdf_terms::Memory;
use std::alloc::Global;
use terminals::{Gap, gap_at};

/// What stands at a place, behind white space and comments.
#[derive(Clone, Copy)]
pub enum Next {
    /// A token that others follow.
    Token(Token),
    /// The text's end, or the place where no token can be read.
    Last(Token),
}

// A token of no bytes, which ends the list.
fn last(kind: TurtleKind, at: usize) -> Next
    ensures { result ≡ Next.Last (spec.token_of kind at at) }
{
    Next::Last(Token {
        kind,
        from: at,
        to: at,
    })
}

// The token that follows a place, and the new `no_colon_before`.
fn read(dialect: Dialect, bytes: &[u8], from: usize, no_colon_before: usize) -> (Next, usize)
    requires place { from ≤ length bytes.now }
    requires nameless { HasNoPrefixedName dialect no_colon_before from (symbols_of (drop from bytes.now)) }
    ensures next { spec.IsNext dialect bytes.now from result.0 }
    ensures within { spec.IsWithin from (length bytes.now) result.0 }
    ensures placed { spec.IsPlaced result.0 }
    ensures plain { spec.HasPlain bytes.now result.0 }
    ensures nameless { spec.HasNoPrefixedNameBehind dialect result.1 bytes.now result.0 }
{
    match gap_at(bytes, from) {
        Gap::End(at) => (last(TurtleKind::End, at), no_colon_before),
        Gap::Ill(at) => (last(TurtleKind::Bad, at), no_colon_before),
        Gap::Token(at) => match longest(dialect, bytes, at, no_colon_before) {
            (Some((kind, to)), no_colon_before) => (
                Next::Token(Token { kind, from: at, to }),
                no_colon_before,
            ),
            (None, no_colon_before) => (last(TurtleKind::Bad, at), no_colon_before),
        },
    }
}

// How many bytes are skipped at the very beginning.
fn skipped(bytes: &[u8]) -> usize
    ensures value { result ≡ spec.skipped bytes.now }
    ensures within { result ≤ length bytes.now }
{
    if bytes.starts_with(&[0xef, 0xbb, 0xbf]) {
        3
    } else {
        0
    }
}

fn lex(alloc: Global, dialect: Dialect, bytes: &[u8]) -> Result<Vec<Token>, Memory>
    ensures tokens { IfOk result (λ tokens. spec.TokensIn dialect bytes.now tokens.items) }
    ensures spans { IfOk result (λ tokens. All (spec.HasSpan (length bytes.now)) tokens.items) }
    ensures plain { IfOk result (λ tokens. All (spec.IsPlain bytes.now) tokens.items) }
    ensures ended { IfOk result (λ tokens. spec.IsEnded tokens.items) }
{
    let mut tokens = Vec::new(alloc);
    let mut at = skipped(bytes);
    let mut no_colon_before = at;
    loop {
        let (next, next_no_colon_before) = read(dialect, bytes, at, no_colon_before);
        match next {
            Next::Token(token) => {
                tokens.push(token)?;
                at = token.to;
                no_colon_before = next_no_colon_before;
            }
            Next::Last(token) => {
                tokens.push(token)?;
                return Ok(tokens);
            }
        }
    }
}

/// All tokens of a text of Turtle, in order: the last is `End` at the text's length, or `Bad` at the
/// first place where no token can be read. It takes time linear in the length, and one list of
/// memory.
pub fn lex_turtle(alloc: Global, bytes: &[u8]) -> Result<Vec<Token>, Memory>
    ensures tokens { IfOk result (λ tokens. spec.TurtleTokens bytes.now tokens.items) }

    // What follows from that, for those who read the tokens' bytes.
    ensures spans { IfOk result (λ tokens. All (spec.HasSpan (length bytes.now)) tokens.items) }
    ensures plain { IfOk result (λ tokens. All (spec.IsPlain bytes.now) tokens.items) }
    ensures ended { IfOk result (λ tokens. spec.IsEnded tokens.items) }
{
    lex(alloc, Dialect::Turtle, bytes)
}

/// The same of a text of N-Triples. A line end that ends a statement lies in the gap between two
/// tokens.
pub fn lex_ntriples(alloc: Global, bytes: &[u8]) -> Result<Vec<Token>, Memory>
    ensures tokens { IfOk result (λ tokens. spec.NTriplesTokens bytes.now tokens.items) }

    // What follows from that, for those who read the tokens' bytes.
    ensures spans { IfOk result (λ tokens. All (spec.HasSpan (length bytes.now)) tokens.items) }
    ensures plain { IfOk result (λ tokens. All (spec.IsPlain bytes.now) tokens.items) }
    ensures ended { IfOk result (λ tokens. spec.IsEnded tokens.items) }
{
    lex(alloc, Dialect::NTriples, bytes)
}
