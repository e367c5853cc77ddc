//! Texts of queries.

ghost use Rattle.std.specs.Prelude.{◌≡◌, ◌≤◌, All, length, IfOk, option_map};
ghost use Rattle.algebra_core.specs.Query.{IsValid};
ghost use Rattle.sparql_lexer.specs.Tokens.{HasSpan};
ghost use Rattle.sparql_parser.specs.Answer as spec;
ghost use Rattle.sparql_parser.specs.Answer.{UnlessMemory};
ghost use Rattle.sparql_parser.specs.Grammar.{reads, QueryUnit};
ghost use Rattle.sparql_parser.specs.Views.{view_found};

use crate::fault::QueryFault;
use crate::queries::{Found, parse_query};
use algebra_core::{Query, patterns};
use algebra_translation::{once, selected_by_star};
use rdf_terms::{Memory, Seq, TextBuf};
use sparql_lexer::{QueryToken, lex_sparql};
use sparql_resolve::{Fault, ResolveError, Resolved, resolve};
use std::alloc::Global;

/// How many bytes a query may have.
pub const MOST_BYTES: usize = 65536;

fn fault_of(fault: Fault) -> QueryFault
    ensures { result ≡ spec.fault fault }
{
    match fault {
        Fault::Syntax(at) => QueryFault::Syntax { at },
        Fault::Unsupported(at) => QueryFault::Unsupported { at },
        Fault::Deep(at) => QueryFault::Deep { at },
    }
}

// The selected variables of a query that has all but these.
fn selected(alloc: Global, select: Option<Vec<u16>>, query: &Query) -> Result<Seq<u16>, Memory>
    requires { length query.now.names ≤ 65535 }
    ensures { IfOk result (λ s. s ≡ spec.selected (length query.now.names) (option_map (λ all. all.items) select) query.now.body) }
{
    match select {
        Some(all) => Ok(Seq::from_vec(once(alloc, all.as_slice())?)),
        None => {
            let patterns = patterns(alloc, query)?;
            let names = query.names.len() as u16;
            Ok(Seq::from_vec(selected_by_star(alloc, names, patterns.as_slice())?))
        }
    }
}

fn query_of(alloc: Global, names: Seq<TextBuf>, width: u16, found: Found) -> Result<Query, Memory>
    requires { length names ≤ 65535 }
    ensures { IfOk result (λ q. q ≡ spec.query names width (view_found found)) }
{
    let Found {
        distinct,
        select,
        body,
        order,
    } = found;
    let mut query = Query {
        names,
        width,
        select: Seq::new(alloc),
        distinct,
        body,
        order: Seq::from_vec(order),
    };
    query.select = selected(alloc, select, &query)?;
    Ok(query)
}

// The query of resolved tokens, or the first fault.
fn read_resolved(alloc: Global, resolved: Resolved) -> Result<Query, QueryFault>
    requires { length resolved.names ≤ 65535 }
    ensures { UnlessMemory (λ a. a ≡ spec.answer_by resolved.names resolved.width (reads resolved.stop QueryUnit resolved.tokens)) result }
{
    let Resolved {
        names,
        width,
        tokens,
        stop,
    } = resolved;
    match parse_query(alloc, stop, tokens.as_slice()) {
        Ok((found, _)) => Ok(query_of(alloc, names, width, found)?),
        Err(ResolveError::Fault(fault)) => Err(fault_of(fault)),
        Err(ResolveError::Memory) => Err(QueryFault::Memory),
    }
}

// The query of a text's tokens, or the first fault.
fn read_tokens(alloc: Global, text: &str, tokens: &[QueryToken]) -> Result<Query, QueryFault>
    requires { All (HasSpan (length text.now)) tokens.now }
    ensures { UnlessMemory (spec.IsRead text.now tokens.now) result }
{
    let resolved = resolve(alloc, text, tokens)?;
    read_resolved(alloc, resolved)
}

// The answer to a text that is not too long.
fn read_short(alloc: Global, text: &str) -> Result<Query, QueryFault>
    ensures { UnlessMemory (spec.IsShortAnswer text.now) result }
{
    let tokens = lex_sparql(alloc, text)?;
    read_tokens(alloc, text, tokens.as_slice())
}

/// The query of a text, or its first fault. It takes time linear in the text's length, which is at
/// most 65,536 bytes, in the IRIs that its names stand for, since each is written out, and in the base
/// in force for each IRIREF; at most 32 groups, brackets and nodes are open at once.
pub fn read_query(alloc: Global, text: &str) -> Result<Query, QueryFault>
    ensures answer { UnlessMemory (spec.IsAnswer text.now) result }
    ensures valid { IfOk result IsValid }
{
    if text.len() > MOST_BYTES {
        return Err(QueryFault::LongQuery);
    }
    read_short(alloc, text)
}
