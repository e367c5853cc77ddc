ghost use Rattle.std.specs.Prelude.{◌≡◌};

use crate::{Sink, Source};

/// One object that is read from and written to, as a connection is.
///
/// A read leaves its content and its faults as a sink, and a write leaves what it has left and its
/// faults as a source. Signatures that want `Source + Sink` of one object ask for this trait.
pub trait Stream: Source + Sink {
    ghost read_apart: { (s : Self) → Self.Source.apart s ≡ (Self.content s, Self.Sink.faults s) };

    ghost write_apart: { (s : Self) → Self.Sink.apart s ≡ (Self.left s, Self.Source.faults s) };
}
