//! Why a token is not taken.

ghost use Rattle.std.specs.Prelude.{◌≡◌};
ghost use Rattle.turtle_reader.specs.declared.token_fault.ResolveError.TheVariants as errors;

use rdf_terms::Memory;
use std::alloc::{AllocError, AllocFailed};

/// What is wrong with a text, and the place of the token, in bytes.
#[derive(Clone, Copy, Debug, PartialEq, Eq)]
pub enum Fault {
    /// The text isn't of the language.
    Syntax(usize),
    /// Too many brackets are open.
    Deep(usize),
}

/// A fault, or memory ran out.
#[derive(Debug, Drop)]
pub enum ResolveError {
    Memory,
    Fault(Fault),
}

impl From<Memory> for ResolveError {
    ghost from_gives = { λ _ e. e ≡ errors.Memory };

    fn from(_: Memory) -> Self {
        ResolveError::Memory
    }
}

impl From<AllocError> for ResolveError {
    ghost from_gives = { λ _ e. e ≡ errors.Memory };

    fn from(_: AllocError) -> Self {
        ResolveError::Memory
    }
}

impl<T: Drop> From<AllocFailed<T>> for ResolveError {
    ghost from_gives = { λ _ e. e ≡ errors.Memory };

    fn from(_: AllocFailed<T>) -> Self {
        ResolveError::Memory
    }
}
