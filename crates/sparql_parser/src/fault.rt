//! Why a text is not a query.

ghost use Rattle.std.specs.Prelude.{◌≡◌};

use rdf_terms::Memory;
use sparql_resolve::{Fault, ResolveError};
use thiserror::Error;

/// Why a text is not read as a query. A place is that of a token's first byte, or the text's length.
#[derive(Clone, Copy, Debug, Drop, PartialEq, Eq, Error)]
pub enum QueryFault {
    /// No token can be read, one doesn't fit, an IRI, a name or a label is refused, or the text ends too early.
    #[error("a syntax error, at byte {at}")]
    Syntax { at: usize },
    /// The first token that doesn't fit is a mark or keyword of SPARQL that the profile doesn't take there.
    #[error("not supported, at byte {at}")]
    Unsupported { at: usize },
    /// More than 32 brackets are open, or more than 256 groups stand in it.
    #[error("nested too deep, at byte {at}")]
    Deep { at: usize },
    /// The text has more than 65,536 bytes.
    #[error("longer than 65536 bytes")]
    LongQuery,
    /// Memory ran out.
    #[error("out of memory")]
    Memory,
}

impl From<Memory> for QueryFault {
    ghost use Rattle.sparql_parser.specs.declared.fault.QueryFault.TheVariants as faults;

    ghost from_gives = { λ _ e. e ≡ faults.Memory };

    fn from(_: Memory) -> Self {
        QueryFault::Memory
    }
}
