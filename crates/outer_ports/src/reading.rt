ghost use Rattle.std.specs.Prelude.{◌≡◌, ◌<◌, ◌≤◌, ℕ, List, length, IfOk, OnOk, OnErr};
ghost use Rattle.std.specs.Io.KnownBytes.{prepend_known, IsAtEnd};
ghost use Rattle.outer_ports.specs.Causes.{Rose, RoseOnce};

use crate::{Read, Source};
use rdf_terms::ByteBuf;
use std::alloc::Global;

/// Why reading stopped before the end.
#[derive(Clone, Copy, Debug, PartialEq, Eq)]
pub enum SourceFault {
    /// The source failed.
    Failed,
    /// Memory ran out.
    Memory,
}

const ROOM: usize = 16_384;

/// Reads to the End, or until `most` bytes are read; a source that failed is not read again. To see whether more than a limit is left, read
/// one byte more than the limit.
///
/// It costs time linear in the bytes, and at its peak the room of a vector that grows by doubling.
pub fn read_all<S: Source>(
    alloc: Global,
    source: &mut S,
    most: usize,
) -> Result<ByteBuf, SourceFault>
    ensures bytes { IfOk result (λ bytes.
        S.left source.old ≡ prepend_known bytes (S.left source.new)) }
    ensures most { IfOk result (λ bytes. length bytes ≤ most) }

    // Where fewer bytes came, the source was read to its End.
    ensures at_end { IfOk result (λ bytes. length bytes < most → IsAtEnd (S.left source.new)) }
    ensures ended { IfOk result (λ bytes. length bytes < most →
        Rose (S.ends source.old) (S.ends source.new)) }

    // A fault has its cause, and some bytes may have been read before it.
    ensures cause { result ≡ Err SourceFault.Failed →
        RoseOnce (S.faults source.old) (S.faults source.new) }
    ensures memory { result ≡ Err SourceFault.Memory → S.faults source.new ≡ S.faults source.old }
    ensures read { OnErr result ((bytes : List ℕ) ×
        (S.left source.old ≡ prepend_known bytes (S.left source.new))) }

    ensures calm { OnOk result (S.faults source.new ≡ S.faults source.old) }
    ensures later { S.faults source.old ≤ S.faults source.new }
    ensures apart { S.apart source.new ≡ S.apart source.old }
{
    let mut bytes = ByteBuf::new(alloc);
    let mut buf = [0u8; ROOM];
    while bytes.len() < most {
        let room = (most - bytes.len()).min(ROOM);
        match source.read(&mut buf[..room]) {
            Read::Took(count) => {
                if bytes.extend(&buf[..count]).is_err() {
                    return Err(SourceFault::Memory);
                }
            }
            Read::End => return Ok(bytes),
            Read::Failed => return Err(SourceFault::Failed),
        }
    }
    Ok(bytes)
}
