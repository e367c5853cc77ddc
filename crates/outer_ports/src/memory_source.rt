ghost use Rattle.std.specs.Prelude.{◌≡◌, ◌<◌, ◌≤◌, ◌+◌, ◌-◌, ◌^◌, ◌↔◌, min, ℕ, List, length, Contains, Some, drop, take};
ghost use Rattle.outer_ports.specs.Causes.{RoseOnce};
ghost use Rattle.outer_ports.specs.Ports.{Reads, CountsEnds, ReadFaults, TakesUpTo};

use crate::piece::{copy_piece, tail};
use crate::{Read, Source};
use rdf_terms::ByteBuf;
use std::marker::Model;

/// Bytes in memory that are read in pieces, and fail at the calls that a list numbers.
#[derive(Drop)]
pub struct MemorySource {
    bytes: ByteBuf,
    at: usize,
    piece: usize,
    fail: Vec<u64>,
    calls: u64,
    faults: u64,
    ends: u64,
}

impl Model for MemorySource {
    ghost use Rattle.std.specs.Prelude.{◌<◌, ◌≤◌, ℕ, List, length, drop};
    ghost use Rattle.outer_ports.specs.Memory.{Reading};

    ghost Value = { Reading };

    ghost view = { λ s. record {
      left = drop s.at s.bytes;
      piece = s.piece;
      fail = s.fail.items;
      calls = s.calls;
      faults = s.faults;
      ends = s.ends;
    } };

    ghost invariant = { λ s. (s.at ≤ length s.bytes) × (0 < s.piece) };
}

impl MemorySource {
    /// At most `piece` bytes a call. The calls whose number, from 0, stands in `fail` fail.
    pub fn new(bytes: ByteBuf, piece: usize, fail: Vec<u64>) -> MemorySource
        requires { 0 < piece }
        ensures { result ≡ record {
          left = bytes;
          piece = piece;
          fail = fail.items;
          calls = 0;
          faults = 0;
          ends = 0;
        } }
    {
        MemorySource {
            bytes,
            at: 0,
            piece,
            fail,
            calls: 0,
            faults: 0,
            ends: 0,
        }
    }
}

impl Source for MemorySource {
    ghost left = { λ s. Some s.left };

    ghost faults = { λ s. s.faults };

    ghost ends = { λ s. s.ends };

    /// A call costs the bytes that it copies, and a search in the list of the calls that fail.
    fn read(&mut self, buf: &mut [u8]) -> Read
        requires { 0 < length buf.old }
        ensures reads { Reads (Some self.old.left) (Some self.new.left) buf.new result }
        ensures ends { CountsEnds self.old.ends self.new.ends result }
        ensures later { self.old.faults ≤ self.new.faults }
        ensures counts { ReadFaults self.old.faults self.new.faults result }
        ensures cause { result ≡ Read.Failed → RoseOnce self.old.faults self.new.faults }

        // It fails exactly at the numbered calls, and else takes as much as it may.
        ensures exactly { (result ≡ Read.Failed) ↔ Contains self.old.fail self.old.calls }
        ensures up_to { TakesUpTo
            (min self.old.piece (min (length self.old.left) (length buf.old))) result }
        ensures calls { self.new.calls ≡ min (self.old.calls + 1) (2 ^ 64 - 1) }
        ensures fail { self.new.fail ≡ self.old.fail }
        ensures piece { self.new.piece ≡ self.old.piece }
    {
        let failing = self.fail.contains(&self.calls);
        self.calls = self.calls.saturating_add(1);
        if failing {
            self.faults = self.faults.saturating_add(1);
            return Read::Failed;
        }
        let count = copy_piece(tail(self.bytes.as_slice(), self.at), self.piece, buf);
        if count == 0 {
            self.ends = self.ends.saturating_add(1);
            return Read::End;
        }
        self.at += count;
        Read::Took(count)
    }
}
