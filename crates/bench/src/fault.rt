use rdf_terms::Memory;
use std::alloc::{AllocError, AllocFailed};

/// Why a measurement has no answer.
#[derive(Debug, Drop)]
pub(crate) enum Fault {
    /// The words are those of no measurement.
    Words,
    /// The input can't be read, or is not what is measured.
    Input,
    Memory,
}

impl Fault {
    /// The status that the program ends with.
    pub(crate) fn code(&self) -> u8 {
        match self {
            Fault::Input => 1,
            Fault::Words => 2,
            Fault::Memory => 10,
        }
    }
}

impl From<Memory> for Fault {
    fn from(_: Memory) -> Self {
        Fault::Memory
    }
}

impl From<AllocError> for Fault {
    fn from(_: AllocError) -> Self {
        Fault::Memory
    }
}

impl<T: Drop> From<AllocFailed<T>> for Fault {
    fn from(_: AllocFailed<T>) -> Self {
        Fault::Memory
    }
}
