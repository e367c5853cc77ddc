ghost use Rattle.std.specs.Prelude.{◌≡◌, ◌≤◌, ◌++◌, ℕ, List, [], length, true, IfOk, OnOk, OnErr};
ghost use Rattle.std.specs.Io.KnownBytes.{prepend_known};
ghost use Rattle.outer_ports.specs.Causes.{RoseOnce};
ghost use Rattle.doc_server.specs.declared.head_end.Place.TheVariants.{Blank, Ended};
ghost use Rattle.doc_server.specs.HeadEnd.{place_after};
ghost use Rattle.doc_server.specs.Writing.{IsEnough, request_limit};

use crate::head_end::{Place, place_after};
use outer_ports::{Read, Source, SourceFault};
use rdf_terms::{ByteBuf, Memory};
use std::alloc::Global;

/// The most bytes of a connection that are taken.
const REQUEST_LIMIT: usize = 65_536;

const ROOM: usize = 4_096;

/// The bytes of a request so far, and where the next one stands.
#[derive(Drop)]
struct Request {
    bytes: ByteBuf,
    place: Place,
    ghost here: { place ≡ place_after Blank bytes },
}

impl Request {
    fn new(alloc: Global) -> Request
        ensures { result.bytes ≡ [] }
    {
        Request {
            bytes: ByteBuf::new(alloc),
            place: Place::Blank,
        }
    }

    fn len(&self) -> usize
        ensures { result ≡ length self.now.bytes }
    {
        self.bytes.len()
    }

    fn push(&mut self, piece: &[u8]) -> Result<(), Memory>
        ensures ok { OnOk result (self.new.bytes ≡ self.old.bytes ++ piece.now) }
        ensures err { OnErr result (self.new.bytes ≡ self.old.bytes) }
    {
        self.bytes.extend(piece)?;
        self.place = place_after(self.place, piece);
        Ok(())
    }

    fn has_ended(&self) -> bool
        ensures { result ≡ true → place_after Blank self.now.bytes ≡ Ended }
    {
        matches!(self.place, Place::Ended)
    }

    fn into_bytes(self) -> ByteBuf
        ensures { result ≡ self.bytes }
    {
        let Request { bytes, place: _ } = self;
        bytes
    }
}

/// Reads a request: to the end of its head or some bytes further, to the End, or until as many bytes are
/// read as may be.
pub fn read_request<S: Source>(alloc: Global, source: &mut S) -> Result<ByteBuf, SourceFault>
    ensures bytes { IfOk result (λ bytes.
        S.left source.old ≡ prepend_known bytes (S.left source.new)) }
    ensures most { IfOk result (λ bytes. length bytes ≤ request_limit) }
    ensures enough { IfOk result (λ bytes. IsEnough bytes (S.left source.new)) }
    ensures cause { result ≡ Err SourceFault.Failed →
        RoseOnce (S.faults source.old) (S.faults source.new) }
    ensures memory { result ≡ Err SourceFault.Memory → S.faults source.new ≡ S.faults source.old }
    ensures read { OnErr result ((bytes : List ℕ) × (length bytes ≤ request_limit)
        × (S.left source.old ≡ prepend_known bytes (S.left source.new))) }
    ensures calm { OnOk result (S.faults source.new ≡ S.faults source.old) }
    ensures apart { S.apart source.new ≡ S.apart source.old }
{
    let mut request = Request::new(alloc);
    let mut buf = [0u8; ROOM];
    while request.len() < REQUEST_LIMIT {
        let room = (REQUEST_LIMIT - request.len()).min(ROOM);
        match source.read(&mut buf[..room]) {
            Read::Took(count) => {
                if request.push(&buf[..count]).is_err() {
                    return Err(SourceFault::Memory);
                }
                if request.has_ended() {
                    return Ok(request.into_bytes());
                }
            }
            Read::End => return Ok(request.into_bytes()),
            Read::Failed => return Err(SourceFault::Failed),
        }
    }
    Ok(request.into_bytes())
}
