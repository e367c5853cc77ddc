ghost use Rattle.std.specs.Prelude.{◌≡◌, ◌≤◌, ℕ, List, [], ◌++◌, length, Some};

use crate::{Sink, Wrote};
use rdf_terms::ByteBuf;
use std::alloc::Global;
use std::marker::Model;

/// A sink in memory that never fails. Contracts see it as the bytes that it was given.
#[derive(Drop)]
pub struct SureSink {
    bytes: ByteBuf,
}

impl Model for SureSink {
    ghost use Rattle.std.specs.Prelude.{ℕ, List};

    ghost Value = { List ℕ };

    ghost view = { λ s. s.bytes };
}

impl SureSink {
    /// Nothing was given yet.
    pub fn new(alloc: Global) -> SureSink
        ensures { result ≡ [] }
    {
        SureSink {
            bytes: ByteBuf::new(alloc),
        }
    }

    /// The bytes that it was given.
    pub fn content(&self) -> &[u8]
        ensures { result.now ≡ self.now }
    {
        self.bytes.as_slice()
    }
}

impl Sink for SureSink {
    ghost content = { λ s. Some s };

    ghost faults = { λ _. 0 };

    fn write(&mut self, piece: &[u8]) -> Wrote {
        match self.bytes.extend(piece) {
            Err(_) => Wrote::Memory,
            Ok(()) => Wrote::Took(piece.len()),
        }
    }
}
