//! A site, requests for it, and connections in memory.
ghost use Rattle.std.specs.Prelude.{◌≡◌};
ghost use Rattle.doc_server.specs.Memory.{IsUnused};

use doc_server::MemoryConn;
use outer_ports::{MemorySink, MemorySource};
use rdf_terms::ByteBuf;
use std::alloc::Global;
use std::process::Abort;

pub const SITE: &str =
    "site 1\nlink http://a.test/1\nstatus 200\ntype application/n-triples\nbody 50\n<http://a.test/1#me> <http://v.test/name> \"Ann\" .\n\nend\n";

pub const REQUEST: &str = "GET http://a.test/1 HTTP/1.1\r\nHost: a.test\r\n\r\n";

pub const RESPONSE: &str =
    "HTTP/1.1 200 \r\nContent-Type: application/n-triples\r\nContent-Length: 50\r\nConnection: close\r\n\r\n<http://a.test/1#me> <http://v.test/name> \"Ann\" .\n";

/// More room than any response has.
pub const AMPLE: u64 = 1_000_000;

pub fn bytes(alloc: Global, rt: &impl Abort, of: &str) -> ByteBuf {
    ByteBuf::from_slice(alloc, of.as_bytes()).expect(rt, "memory")
}

fn numbers(alloc: Global, rt: &impl Abort, of: &[u64]) -> Vec<u64> {
    Vec::from_slice(alloc, of).expect(rt, "memory")
}

/// A source of these bytes, in small pieces, that fails at the numbered calls.
pub fn source(alloc: Global, rt: &impl Abort, of: &str, fail: &[u64]) -> MemorySource
    ensures { result.faults ≡ 0 }
{
    let bytes = bytes(alloc, rt, of);
    let fail = numbers(alloc, rt, fail);
    MemorySource::new(bytes, 7, fail)
}

/// A connection that holds these bytes, has so much room, and fails at the numbered reads.
pub fn connection(alloc: Global, rt: &impl Abort, held: &str, room: u64, fail: &[u64]) -> MemoryConn
    ensures { IsUnused result }
{
    let source = source(alloc, rt, held, fail);
    MemoryConn::new(source, MemorySink::new(alloc, room))
}
