ghost use Rattle.std.specs.Prelude.{◌≡◌, refl};

use crate::{Read, Sink, Source, Stream, Wrote};

/// A source and a sink as one stream.
#[derive(Drop)]
pub struct Joined<S, K> {
    pub source: S,
    pub sink: K,
}

impl<S: Source, K: Sink> Source for Joined<S, K> {
    ghost left = { λ s. S.left s.source };

    ghost faults = { λ s. S.faults s.source };

    ghost ends = { λ s. S.ends s.source };

    ghost apart = { λ s. (K.content s.sink, K.faults s.sink) };

    fn read(&mut self, buf: &mut [u8]) -> Read {
        self.source.read(buf)
    }
}

impl<S: Source, K: Sink> Sink for Joined<S, K> {
    ghost content = { λ s. K.content s.sink };

    ghost faults = { λ s. K.faults s.sink };

    ghost apart = { λ s. (S.left s.source, S.faults s.source) };

    fn write(&mut self, piece: &[u8]) -> Wrote {
        self.sink.write(piece)
    }
}

impl<S: Source, K: Sink> Stream for Joined<S, K> {
    ghost read_apart = { λ _. refl };

    ghost write_apart = { λ _. refl };
}
