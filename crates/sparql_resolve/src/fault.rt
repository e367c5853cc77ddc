//! Why a token is not taken.

ghost use Rattle.std.specs.Prelude.{◌≡◌};
ghost use Rattle.sparql_resolve.specs.declared.fault.ResolveError.TheVariants as errors;

use rdf_terms::Memory;
use std::alloc::{AllocError, AllocFailed};

/// What is wrong with a query, and the place of the token, in bytes.
#[derive(Clone, Copy, Debug, PartialEq, Eq)]
pub enum Fault {
    /// No token can be read, or an IRI, a name or a label is refused.
    Syntax(usize),
    /// A mark or keyword of SPARQL that the profile doesn't take there.
    Unsupported(usize),
    /// Too many brackets are open, or too many groups stand in it.
    Deep(usize),
}

/// A fault, or memory ran out.
#[derive(Debug, Drop)]
pub enum ResolveError {
    Memory,
    Fault(Fault),
}

impl From<Memory> for ResolveError {
    ghost from_gives = { λ _ e. e ≡ errors.Memory };

    fn from(_: Memory) -> Self {
        ResolveError::Memory
    }
}

impl From<AllocError> for ResolveError {
    ghost from_gives = { λ _ e. e ≡ errors.Memory };

    fn from(_: AllocError) -> Self {
        ResolveError::Memory
    }
}

impl<T: Drop> From<AllocFailed<T>> for ResolveError {
    ghost from_gives = { λ _ e. e ≡ errors.Memory };

    fn from(_: AllocFailed<T>) -> Self {
        ResolveError::Memory
    }
}
