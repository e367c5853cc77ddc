ghost use Rattle.std.specs.Prelude.{◌≡◌, ◌<◌, ◌≤◌, ℕ, List, length, None};
ghost use Rattle.std.specs.declared.option.Option.{Option};
ghost use Rattle.outer_ports.specs.Causes.{RoseOnce};
ghost use Rattle.outer_ports.specs.Ports.{Writes, WriteFaults};

/// What a write answers.
#[derive(Clone, Copy, Debug, PartialEq, Eq)]
pub enum Wrote {
    /// So many bytes of the piece, at least one, were taken from its front.
    Took(usize),
    /// Writing failed, and nothing was taken.
    Failed,
    /// Memory ran out, and nothing was taken.
    Memory,
}

/// Where bytes go.
pub trait Sink {
    /// The bytes that it was given, where they are told.
    ghost content: { Self → Option (List ℕ) };

    /// How often it has failed.
    ghost faults: { Self → ℕ };

    /// What a write leaves as it was: what is left and the faults of a source, where it is one too.
    ghost apart: { Self → Option (List ℕ) × ℕ } = { λ _. (None, 0) };

    /// Writes some bytes from the front of `piece`.
    fn write(&mut self, piece: &[u8]) -> Wrote
        requires { 0 < length piece.now }
        ensures writes { Writes (content self.old) (content self.new) piece.now result }
        ensures later { faults self.old ≤ faults self.new }
        ensures cause { result ≡ Wrote.Failed → RoseOnce (faults self.old) (faults self.new) }
        ensures counts { WriteFaults (faults self.old) (faults self.new) result }
        ensures apart { apart self.new ≡ apart self.old };
}
