ghost use Rattle.std.specs.Prelude.{◌≡◌, ◌<◌, ◌≤◌, ℕ, List, length, Some, drop, take, min};
ghost use Rattle.outer_ports.specs.Ports.{Reads, CountsEnds, TakesUpTo};

use crate::piece::{copy_piece, tail};
use crate::{Read, Source};
use rdf_terms::ByteBuf;
use std::marker::Model;

/// Bytes in memory that never fail.
#[derive(Drop)]
pub struct SureSource {
    bytes: ByteBuf,
    at: usize,
    ends: u64,
}

impl Model for SureSource {
    ghost use Rattle.std.specs.Prelude.{◌≤◌, ℕ, List, length, drop};
    ghost use Rattle.outer_ports.specs.Memory.{SureReading};

    ghost Value = { SureReading };

    ghost view = { λ s. record { left = drop s.at s.bytes; ends = s.ends } };

    ghost invariant = { λ s. s.at ≤ length s.bytes };
}

impl SureSource {
    /// All of `bytes` are left.
    pub fn new(bytes: ByteBuf) -> SureSource
        ensures { result ≡ record { left = bytes; ends = 0 } }
    {
        SureSource {
            bytes,
            at: 0,
            ends: 0,
        }
    }
}

impl Source for SureSource {
    ghost left = { λ s. Some s.left };

    ghost faults = { λ _. 0 };

    ghost ends = { λ s. s.ends };

    fn read(&mut self, buf: &mut [u8]) -> Read {
        let count = copy_piece(tail(self.bytes.as_slice(), self.at), usize::MAX, buf);
        if count == 0 {
            self.ends = self.ends.saturating_add(1);
            return Read::End;
        }
        self.at += count;
        Read::Took(count)
    }
}
