ghost use Rattle.std.specs.Prelude.{◌≡◌, ◌≤◌, ℕ, length, take, OnOk, OnErr};
ghost use Rattle.std.specs.Io.KnownBytes.{append_known};
ghost use Rattle.outer_ports.specs.Causes.{RoseOnce};

use crate::piece::tail;
use crate::{Sink, Wrote};

/// Why writing stopped before the end.
#[derive(Clone, Copy, Debug, PartialEq, Eq)]
pub enum SinkFault {
    /// The sink failed.
    Failed,
    /// The sink ran out of memory.
    Memory,
}

/// Writes the whole text, or a prefix of it where it stops with an error. Nothing is written to a sink that failed.
pub fn write_all<K: Sink>(sink: &mut K, text: &[u8]) -> Result<(), SinkFault>
    ensures whole { OnOk result (K.content sink.new ≡ append_known (K.content sink.old) text.now) }
    ensures prefix { OnErr result ((n : ℕ) × (n ≤ length text.now)
        × (K.content sink.new ≡ append_known (K.content sink.old) (take n text.now))) }
    ensures cause { result ≡ Err SinkFault.Failed → RoseOnce (K.faults sink.old) (K.faults sink.new) }
    ensures memory { result ≡ Err SinkFault.Memory → K.faults sink.new ≡ K.faults sink.old }
    ensures calm { OnOk result (K.faults sink.new ≡ K.faults sink.old) }
    ensures later { K.faults sink.old ≤ K.faults sink.new }
    ensures apart { K.apart sink.new ≡ K.apart sink.old }
{
    let mut at = 0;
    while at < text.len() {
        match sink.write(tail(text, at)) {
            Wrote::Took(count) => at += count,
            Wrote::Failed => return Err(SinkFault::Failed),
            Wrote::Memory => return Err(SinkFault::Memory),
        }
    }
    Ok(())
}
