ghost use Rattle.std.specs.Prelude.{◌≡◌, ◌≤◌, ℕ, List, length};
ghost use Rattle.std.specs.Io.KnownBytes.{prepend_known};
ghost use Rattle.doc_server.specs.Writing.{CountsWritten, IsServedBy, Writes, WritesText, request_limit};

use crate::request::read_request;
use outer_ports::{Sink, SinkFault, SourceFault, Stream, write_all};
use site_core::{Site, serve};
use std::alloc::Global;

/// How the serving of a connection ended.
#[derive(Clone, Copy, Debug, PartialEq, Eq)]
pub enum Served {
    /// The whole response stands written.
    Done,
    /// Reading failed, and nothing was written.
    ReadFault,
    /// Writing failed; a beginning of the response may stand written.
    WriteFault,
    /// Memory ran out; a beginning of the response may stand written.
    Memory,
}

fn write_response<K: Sink>(sink: &mut K, response: &[u8]) -> Served
    ensures written { WritesText response.now (K.content sink.old) (K.content sink.new) result }
    ensures counts { CountsWritten (K.faults sink.old) (K.faults sink.new) result }
    ensures apart { K.apart sink.new ≡ K.apart sink.old }
{
    match write_all(sink, response) {
        Ok(()) => Served::Done,
        Err(SinkFault::Failed) => Served::WriteFault,
        Err(SinkFault::Memory) => Served::Memory,
    }
}

fn answer_request<K: Sink>(alloc: Global, site: &Site, request: &[u8], sink: &mut K) -> Served
    ensures written { Writes site.now request.now (K.content sink.old) (K.content sink.new) result }
    ensures counts { CountsWritten (K.faults sink.old) (K.faults sink.new) result }
    ensures apart { K.apart sink.new ≡ K.apart sink.old }
{
    match serve(alloc, site, request) {
        Ok(response) => write_response(sink, response.as_slice()),
        Err(_) => Served::Memory,
    }
}

/// Reads a request from a connection, and writes the response of the site (RFC 9112, sections 2.1 and 9.6).
///
/// The request is what comes up to the end of its head, the End, or 65,536 bytes, and at most so many bytes
/// are taken. It costs time by the bytes of the request and of the response.
pub fn serve_one<C: Stream>(alloc: Global, site: &Site, conn: &mut C) -> Served
    ensures served { IsServedBy site.now
        (record {
          left = C.left conn.old;
          content = C.content conn.old;
          read_faults = C.Source.faults conn.old;
          write_faults = C.Sink.faults conn.old;
        })
        (record {
          left = C.left conn.new;
          content = C.content conn.new;
          read_faults = C.Source.faults conn.new;
          write_faults = C.Sink.faults conn.new;
        })
        result }

    // No more bytes are taken than a request may have.
    ensures taken { (bytes : List ℕ) × (length bytes ≤ request_limit)
        × (C.left conn.old ≡ prepend_known bytes (C.left conn.new)) }
{
    match read_request(alloc, conn) {
        Ok(request) => answer_request(alloc, site, request.as_slice(), conn),
        Err(SourceFault::Failed) => Served::ReadFault,
        Err(SourceFault::Memory) => Served::Memory,
    }
}
