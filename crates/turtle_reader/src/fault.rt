ghost use Rattle.std.specs.Prelude.{◌≡◌};

use rdf_terms::Memory;
use std::alloc::{AllocError, AllocFailed};
use thiserror::Error;

/// Why a text isn't read. A place is a count of bytes.
#[derive(Clone, Copy, Debug, Drop, PartialEq, Eq, Error)]
pub enum ReadFault {
    /// The text isn't of the language: where the first token begins that does not fit, that is an
    /// IRI reference which is none, or whose prefix is not declared or makes no IRI reference with
    /// its local name; the place where no token can be read; or the text's length where it ends too
    /// early.
    #[error("not in the grammar, at byte {at}")]
    Syntax { at: usize },
    /// The place of the first bracket past the limit.
    #[error("too many brackets open, at byte {at}")]
    Deep { at: usize },
    /// Memory ran out.
    #[error("out of memory")]
    Memory,
}

impl From<Memory> for ReadFault {
    ghost use Rattle.turtle_reader.specs.declared.fault.ReadFault.{ReadFault};

    ghost from_gives = { λ _ e. e ≡ ReadFault.Memory };

    fn from(_: Memory) -> Self {
        ReadFault::Memory
    }
}

impl From<AllocError> for ReadFault {
    ghost use Rattle.turtle_reader.specs.declared.fault.ReadFault.{ReadFault};

    ghost from_gives = { λ _ e. e ≡ ReadFault.Memory };

    fn from(_: AllocError) -> Self {
        ReadFault::Memory
    }
}

impl<T: Drop> From<AllocFailed<T>> for ReadFault {
    ghost use Rattle.turtle_reader.specs.declared.fault.ReadFault.{ReadFault};

    ghost from_gives = { λ _ e. e ≡ ReadFault.Memory };

    fn from(_: AllocFailed<T>) -> Self {
        ReadFault::Memory
    }
}
