ghost use Rattle.std.specs.Prelude.{◌≡◌, ◌<◌, ◌≤◌, ℕ, List, length, None};
ghost use Rattle.std.specs.declared.option.Option.{Option};
ghost use Rattle.outer_ports.specs.Causes.{RoseOnce};
ghost use Rattle.outer_ports.specs.Ports.{Reads, CountsEnds, ReadFaults};

/// What a read answers.
#[derive(Clone, Copy, Debug, PartialEq, Eq)]
pub enum Read {
    /// So many bytes, at least one, stand at the front of the buffer.
    Took(usize),
    /// Nothing is left.
    End,
    /// Reading failed, and nothing was taken. A later read may give more.
    Failed,
}

/// Where bytes come from.
pub trait Source {
    /// The bytes not yet read, where they are told.
    ghost left: { Self → Option (List ℕ) };

    /// How often it has failed.
    ghost faults: { Self → ℕ };

    /// How often it has answered that nothing is left.
    ghost ends: { Self → ℕ };

    /// What a read leaves as it was: the content and the faults of a sink, where it is one too.
    ghost apart: { Self → Option (List ℕ) × ℕ } = { λ _. (None, 0) };

    /// Reads some bytes into the front of `buf`.
    fn read(&mut self, buf: &mut [u8]) -> Read
        requires { 0 < length buf.old }
        ensures reads { Reads (left self.old) (left self.new) buf.new result }
        ensures ends { CountsEnds (ends self.old) (ends self.new) result }
        ensures later { faults self.old ≤ faults self.new }
        ensures cause { result ≡ Read.Failed → RoseOnce (faults self.old) (faults self.new) }
        ensures counts { ReadFaults (faults self.old) (faults self.new) result }
        ensures apart { apart self.new ≡ apart self.old };
}
