ghost use Rattle.std.specs.Prelude.{◌≡◌, ◌<◌, ◌≤◌, ◌+◌, ◌-◌, ◌^◌, ◌↔◌, min, ℕ, List, length, Contains, Some, refl};
ghost use Rattle.outer_ports.specs.Causes.{RoseOnce};
ghost use Rattle.outer_ports.specs.Ports.{Reads, CountsEnds, ReadFaults, TakesUpTo, Writes, WriteFaults, GivesUpTo};
ghost use Rattle.doc_server.specs.Apart.{apart_of};

use outer_ports::{MemorySink, MemorySource, Read, Sink, Source, Stream, Wrote};

/// A connection in memory: what it holds to be read, and what is written in it.
#[derive(Drop)]
pub struct MemoryConn {
    pub source: MemorySource,
    pub sink: MemorySink,
}

impl MemoryConn {
    /// Reads are those of the source, and writes those of the sink.
    pub fn new(source: MemorySource, sink: MemorySink) -> MemoryConn
        ensures { result ≡ record { source = source; sink = sink } }
    {
        MemoryConn { source, sink }
    }
}

impl Source for MemoryConn {
    ghost left = { λ c. Some c.source.left };

    ghost faults = { λ c. c.source.faults };

    ghost ends = { λ c. c.source.ends };

    ghost apart = { λ c. apart_of c.sink.content c.sink.faults };

    fn read(&mut self, buf: &mut [u8]) -> Read
        requires { 0 < length buf.old }
        ensures reads { Reads (Some self.old.source.left) (Some self.new.source.left) buf.new result }
        ensures ends { CountsEnds self.old.source.ends self.new.source.ends result }
        ensures later { self.old.source.faults ≤ self.new.source.faults }
        ensures counts { ReadFaults self.old.source.faults self.new.source.faults result }
        ensures cause { result ≡ Read.Failed →
            RoseOnce self.old.source.faults self.new.source.faults }
        ensures apart { apart_of self.new.sink.content self.new.sink.faults
            ≡ apart_of self.old.sink.content self.old.sink.faults }

        // It fails exactly at the calls that the source numbers, and else takes as much as it may.
        ensures exactly { (result ≡ Read.Failed) ↔ Contains self.old.source.fail self.old.source.calls }
        ensures up_to { TakesUpTo (min self.old.source.piece
            (min (length self.old.source.left) (length buf.old))) result }
        ensures calls { self.new.source.calls ≡ min (self.old.source.calls + 1) (2 ^ 64 - 1) }
        ensures sink { self.new.sink ≡ self.old.sink }
    {
        self.source.read(buf)
    }
}

impl Sink for MemoryConn {
    ghost content = { λ c. Some c.sink.content };

    ghost faults = { λ c. c.sink.faults };

    ghost apart = { λ c. apart_of c.source.left c.source.faults };

    fn write(&mut self, piece: &[u8]) -> Wrote
        requires { 0 < length piece.now }
        ensures writes { Writes (Some self.old.sink.content) (Some self.new.sink.content) piece.now
            result }
        ensures later { self.old.sink.faults ≤ self.new.sink.faults }
        ensures counts { WriteFaults self.old.sink.faults self.new.sink.faults result }
        ensures cause { result ≡ Wrote.Failed →
            RoseOnce self.old.sink.faults self.new.sink.faults }
        ensures apart { apart_of self.new.source.left self.new.source.faults
            ≡ apart_of self.old.source.left self.old.source.faults }

        // It fails exactly where the sink has no room, and else takes as much as there is room for.
        ensures exactly { (result ≡ Wrote.Failed) ↔ (self.old.sink.room ≡ 0) }
        ensures up_to { GivesUpTo (min self.old.sink.room (length piece.now)) result }
        ensures source { self.new.source ≡ self.old.source }
    {
        self.sink.write(piece)
    }
}

impl Stream for MemoryConn {
    ghost read_apart = { λ _. refl };

    ghost write_apart = { λ _. refl };
}
