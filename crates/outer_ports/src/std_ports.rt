ghost use Rattle.std.specs.Prelude.{◌≡◌, ◌<◌, ◌≤◌, None, IfSome, IfNone, length, ℕ, take};
ghost use Rattle.std.specs.Io.KnownBytes.{Appends};
ghost use Rattle.outer_ports.specs.Causes.{RoseOnce};
ghost use Rattle.outer_ports.specs.Ports.{Reads, Writes, CountsEnds, ReadFaults, WriteFaults, ReadsThrough, WritesThrough, AppendsPrefix};

use crate::{Read, Sink, Source, Wrote};
use std::io;

/// A reader of std as a source. It tells nothing of what is left; each error of the reader is a
/// fault.
#[derive(Drop)]
pub struct ReadSource<R> {
    inner: R,
    faults: u64,
    ends: u64,
}

impl<R: io::Read> ReadSource<R> {
    /// Nothing was read yet.
    pub fn new(inner: R) -> ReadSource<R>
        ensures { result ≡ record { inner = inner; faults = 0; ends = 0 } }
    {
        ReadSource {
            inner,
            faults: 0,
            ends: 0,
        }
    }
}

impl<R: io::Read> Source for ReadSource<R> {
    ghost left = { λ _. None };

    ghost faults = { λ s. s.faults };

    ghost ends = { λ s. s.ends };

    fn read(&mut self, buf: &mut [u8]) -> Read
        requires { 0 < length buf.old }
        ensures reads { Reads None None buf.new result }
        ensures ends { CountsEnds self.old.ends self.new.ends result }
        ensures later { self.old.faults ≤ self.new.faults }
        ensures counts { ReadFaults self.old.faults self.new.faults result }
        ensures cause { result ≡ Read.Failed → RoseOnce self.old.faults self.new.faults }

        // What the reader tells of its bytes agrees with the answer.
        ensures through { ReadsThrough
            (R.remaining self.old.inner) (R.remaining self.new.inner) buf.new result }
    {
        match self.inner.read(buf) {
            Ok(0) => {
                self.ends = self.ends.saturating_add(1);
                Read::End
            }
            Ok(count) => Read::Took(count),
            Err(_) => {
                self.faults = self.faults.saturating_add(1);
                Read::Failed
            }
        }
    }
}

/// A writer of std as a sink, flushed after each write. It tells nothing of what it was given; an
/// error, a write that takes nothing and a failed flush are faults.
#[derive(Drop)]
pub struct WriteSink<W> {
    inner: W,
    faults: u64,
}

impl<W: io::Write> WriteSink<W> {
    /// Nothing was written yet.
    pub fn new(inner: W) -> WriteSink<W>
        ensures { result ≡ record { inner = inner; faults = 0 } }
    {
        WriteSink { inner, faults: 0 }
    }
}

// Writes a piece and flushes it. None where nothing was taken, or where the flush failed.
fn write_through<W: io::Write>(inner: &mut W, piece: &[u8]) -> Option<usize>
    ensures some { IfSome result (λ count. (0 < count) × (count ≤ length piece.now)
        × Appends (W.contents inner.old) (W.contents inner.new) (take count piece.now)) }
    ensures none { IfNone result
        (AppendsPrefix (W.contents inner.old) (W.contents inner.new) piece.now) }
{
    match inner.write(piece) {
        Ok(0) | Err(_) => None,
        Ok(count) => match inner.flush() {
            Ok(()) => Some(count),
            Err(_) => None,
        },
    }
}

impl<W: io::Write> Sink for WriteSink<W> {
    ghost content = { λ _. None };

    ghost faults = { λ s. s.faults };

    fn write(&mut self, piece: &[u8]) -> Wrote
        requires { 0 < length piece.now }
        ensures writes { Writes None None piece.now result }
        ensures later { self.old.faults ≤ self.new.faults }
        ensures counts { WriteFaults self.old.faults self.new.faults result }
        ensures cause { result ≡ Wrote.Failed → RoseOnce self.old.faults self.new.faults }

        // What the writer tells of its bytes agrees with the answer.
        ensures through { WritesThrough
            (W.contents self.old.inner) (W.contents self.new.inner) piece.now result }
    {
        match write_through(&mut self.inner, piece) {
            Some(count) => Wrote::Took(count),
            None => {
                self.faults = self.faults.saturating_add(1);
                Wrote::Failed
            }
        }
    }
}
