ghost use Rattle.std.specs.Prelude.{◌≡◌, ◌<◌, ◌≤◌, ◌+◌, ◌-◌, ◌^◌, ◌↔◌, min, ℕ, List, [], ◌++◌, length, Some};
ghost use Rattle.outer_ports.specs.Causes.{RoseOnce};
ghost use Rattle.outer_ports.specs.Ports.{Writes, WriteFaults, GivesUpTo};

use crate::{Sink, Wrote};
use rdf_terms::ByteBuf;
use std::alloc::Global;
use std::marker::Model;

/// A sink in memory that takes so many bytes in all, and then fails.
#[derive(Drop)]
pub struct MemorySink {
    bytes: ByteBuf,
    room: u64,
    faults: u64,
}

impl Model for MemorySink {
    ghost use Rattle.outer_ports.specs.Memory.{Writing};

    ghost Value = { Writing };

    ghost view = { λ s. record { content = s.bytes; room = s.room; faults = s.faults } };
}

impl MemorySink {
    /// Nothing was given yet, and `room` bytes will be taken in all.
    pub fn new(alloc: Global, room: u64) -> MemorySink
        ensures { result ≡ record { content = []; room = room; faults = 0 } }
    {
        MemorySink {
            bytes: ByteBuf::new(alloc),
            room,
            faults: 0,
        }
    }

    /// The bytes that it was given.
    pub fn content(&self) -> &[u8]
        ensures { result.now ≡ self.now.content }
    {
        self.bytes.as_slice()
    }
}

// How many bytes of a piece there is room for.
fn fitting(piece: &[u8], room: u64) -> usize
    ensures { result ≡ min room (length piece.now) }
{
    match usize::try_from(room) {
        Ok(room) => room.min(piece.len()),
        Err(_) => piece.len(),
    }
}

impl Sink for MemorySink {
    ghost content = { λ s. Some s.content };

    ghost faults = { λ s. s.faults };

    /// A call costs what it appends, amortised.
    fn write(&mut self, piece: &[u8]) -> Wrote
        requires { 0 < length piece.now }
        ensures writes { Writes (Some self.old.content) (Some self.new.content) piece.now result }
        ensures later { self.old.faults ≤ self.new.faults }
        ensures counts { WriteFaults self.old.faults self.new.faults result }
        ensures cause { result ≡ Wrote.Failed → RoseOnce self.old.faults self.new.faults }

        // It fails exactly where no room is left, and else takes as much as there is room for.
        ensures exactly { (result ≡ Wrote.Failed) ↔ (self.old.room ≡ 0) }
        ensures up_to { GivesUpTo (min self.old.room (length piece.now)) result }
        ensures all { self.new.room + length self.new.content
            ≡ self.old.room + length self.old.content }
    {
        let count = fitting(piece, self.room);
        if count == 0 {
            self.faults = self.faults.saturating_add(1);
            return Wrote::Failed;
        }
        match self.bytes.extend(&piece[..count]) {
            Err(_) => Wrote::Memory,
            Ok(()) => {
                self.room -= count as u64;
                Wrote::Took(count)
            }
        }
    }
}
