use rdf_terms::Memory;
use std::alloc::{AllocError, AllocFailed};
use thiserror::Error;

/// Why no site was read.
#[derive(Debug, Drop, Error)]
pub enum SiteFault {
    /// The bytes are no site text; `at` counts the bytes before the first fault.
    #[error("not a site file: byte {at}")]
    Bad { at: usize },
    #[error("out of memory")]
    Memory,
}

impl From<Memory> for SiteFault {
    ghost use Rattle.std.specs.Prelude.{◌≡◌};
    ghost use Rattle.site_core.specs.declared.fault.SiteFault.TheVariants.{Memory};

    ghost from_gives = { λ _ e. e ≡ Memory };

    fn from(_: Memory) -> Self {
        SiteFault::Memory
    }
}
