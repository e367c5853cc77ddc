ghost use Rattle.std.specs.Prelude.{◌≡◌, ◌≤◌, ◌↔◌, None, map};
ghost use Rattle.std.specs.String.{string_bytes};
ghost use Rattle.outer_ports.specs.Causes.{one_more};
ghost use Rattle.doc_server.specs.declared.ending.Ending.{Ending};
ghost use Rattle.doc_server.specs.Writing.{Connection, IsServedBy};
ghost use Rattle.doc_server.specs.Peering.{Peering, TakesBack};
ghost use Rattle.doc_server.specs.Serving.{Turns, EndsEach, EndsOver, EndsFrom, Ends, code_of};
ghost use Rattle.doc_server.specs.Words.{count_of};

use crate::ending::Ending;
use crate::peers::{NextPeer, Peers};
use crate::serving::{Served, serve_one};
use crate::words::asked_count;
use outer_ports::{Source, SourceFault, read_all};
use site_core::{Site, SiteFault, read_site};
use std::alloc::Global;

/// The most bytes of an input.
const INPUT_LIMIT: usize = 67_108_864;

/// What became of the next connection.
#[derive(Clone, Copy, Debug, PartialEq, Eq)]
pub enum Turn {
    Served,
    /// None could be given.
    Failed,
    Memory,
}

/// Serves a connection, and hands it back.
fn serve_peer<P: Peers>(alloc: Global, site: &Site, peers: &mut P, conn: P::Conn) -> Served
    requires { one_more (P.peering peers.old).returned ≤ (P.peering peers.old).given }
    ensures { (seen : Connection) × IsServedBy site.now
        (record {
          left = P.Conn.left conn;
          content = P.Conn.content conn;
          read_faults = P.Conn.Source.faults conn;
          write_faults = P.Conn.Sink.faults conn;
        })
        seen result × TakesBack (P.peering peers.old) seen (P.peering peers.new) }
{
    let mut conn = conn;
    let served = serve_one(alloc, site, &mut conn);
    peers.back(conn);
    served
}

/// Serves the next connection. A fault of it ends that one alone.
fn serve_next<P: Peers>(alloc: Global, site: &Site, peers: &mut P) -> Turn
    ensures { Turns site.now (P.peering peers.old) result (P.peering peers.new) }
{
    match peers.next() {
        Ok(NextPeer::Peer(conn)) => match serve_peer(alloc, site, peers, conn) {
            Served::Memory => Turn::Memory,
            _ => Turn::Served,
        },
        Ok(NextPeer::Failed) => Turn::Failed,
        Err(_) => Turn::Memory,
    }
}

/// Serves so many connections, one after the other.
fn serve_each<P: Peers>(alloc: Global, site: &Site, count: u64, peers: &mut P) -> Ending
    ensures { EndsEach site.now count (P.peering peers.old) result (P.peering peers.new) }
{
    for _ in 0..count {
        match serve_next(alloc, site, peers) {
            Turn::Served => {}
            Turn::Failed => return Ending::Network,
            Turn::Memory => return Ending::Memory,
        }
    }
    Ending::Served
}

/// Serves the site that the bytes are.
fn serve_bytes<P: Peers>(alloc: Global, bytes: &[u8], count: u64, peers: &mut P) -> Ending
    ensures { EndsOver bytes.now count (P.peering peers.old) result (P.peering peers.new) }
{
    match read_site(alloc, bytes) {
        Ok(site) => serve_each(alloc, &site, count, peers),
        Err(SiteFault::Bad { at: _ }) => Ending::Site,
        Err(SiteFault::Memory) => Ending::Memory,
    }
}

/// Reads the input whole, or as much of it as shows that it is too long, and serves its site.
fn serve_input<I: Source, P: Peers>(
    alloc: Global,
    count: u64,
    input: &mut I,
    peers: &mut P,
) -> Ending
    ensures { EndsFrom count
        (record { left = I.left input.old; faults = I.faults input.old; ends = I.ends input.old })
        (record { left = I.left input.new; faults = I.faults input.new; ends = I.ends input.new })
        (P.peering peers.old) result (P.peering peers.new) }
{
    match read_all(alloc, input, INPUT_LIMIT + 1) {
        Ok(bytes) => serve_bytes(alloc, bytes.as_slice(), count, peers),
        Err(SourceFault::Failed) => Ending::Input,
        Err(SourceFault::Memory) => Ending::Memory,
    }
}

/// What the words ask for, as an ending.
fn serve_words<I: Source, P: Peers>(
    alloc: Global,
    words: &[String],
    input: &mut I,
    peers: &mut P,
) -> Ending
    ensures ends { Ends (count_of (map string_bytes words.now))
        (record { left = I.left input.old; faults = I.faults input.old; ends = I.ends input.old })
        (record { left = I.left input.new; faults = I.faults input.new; ends = I.ends input.new })
        (P.peering peers.old) result (P.peering peers.new) }
{
    match asked_count(words) {
        Some(count) => serve_input(alloc, count, input, peers),
        None => Ending::Usage,
    }
}

/// Serves the site of an input on as many connections as the words say, one after the other, and hands each
/// back; the answer is the exit code. A fault of one connection ends that one alone, and want of memory
/// ends all with 10.
///
/// The words are a port and a number of connections; any others are answered with 2, and nothing is read.
/// An input that failed is answered with 7, and one that is no site text with 6. Where no connection can be
/// given, the answer is 9.
pub fn serve_site<I: Source, P: Peers>(
    alloc: Global,
    words: &[String],
    input: &mut I,
    peers: &mut P,
) -> u8
    ensures usage { (result ≡ 2) ↔ (count_of (map string_bytes words.now) ≡ None) }
    ensures ends { (ending : Ending) × (result ≡ code_of ending)
        × Ends (count_of (map string_bytes words.now))
        (record { left = I.left input.old; faults = I.faults input.old; ends = I.ends input.old })
        (record { left = I.left input.new; faults = I.faults input.new; ends = I.ends input.new })
        (P.peering peers.old) ending (P.peering peers.new) }
{
    serve_words(alloc, words, input, peers).code()
}
