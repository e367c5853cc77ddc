//! One look-up over the wire in memory.
ghost use Rattle.std.specs.Prelude.{◌≡◌, ◌<◌, length, IfOk};

use fetch_lane::{Asked, Lane, Stage, Went};
use link_uri::Heard;
use outer_ports::{Host, MemoryWire, Opened, Waited, Wire};
use rdf_terms::{ByteBuf, Memory, TextBuf};
use reachability::Cause;
use std::alloc::Global;

// One try over a wire; what is heard, if anything.
fn try_once<W: Wire>(
    wire: &mut W,
    lane: &mut Lane,
    buffer: &mut [u8],
) -> Result<Option<Heard>, Memory>
    requires closed { lane.old.stage ≡ Stage.Closed }
    requires room { lane.old.flight.failed < 255 }
    requires some { 0 < length buffer.old }
{
    let Opened::Conn(conn) = lane.open(wire)? else {
        return Ok(None);
    };
    'turns: for _ in 0..1000 {
        match wire.wait() {
            Waited::Ready(named) => {
                if named != conn {
                    return Ok(None);
                }
                match lane.go_on(wire, conn, buffer)? {
                    Went::Heard(heard) => return Ok(Some(heard)),
                    Went::Failed(_) => return Ok(None),
                    Went::Moved => {}
                    Went::Quiet => {}
                }
            }
            Waited::Quiet => match lane.count_silence(wire, conn) {
                Went::Quiet => {}
                _ => return Ok(None),
            },
            Waited::Failed => return Ok(None),
        }
    }
    Ok(None)
}

const RESPONSE: &[u8] =
    b"HTTP/1.1 200 OK\r\nContent-Type: text/turtle\r\nContent-Length: 3\r\n\r\nabc";

fn text(alloc: Global, of: &str) -> Result<TextBuf, Memory> {
    TextBuf::from_str(alloc, of)
}

fn lane(alloc: Global) -> Result<Lane, Memory>
    ensures closed { IfOk result (λ lane. lane.stage ≡ Stage.Closed) }
    ensures failed { IfOk result (λ lane. lane.flight.failed ≡ 0) }
{
    let host = text(alloc, "a.test")?;
    let request = ByteBuf::from_slice(alloc, b"ask")?;
    let asked = Asked {
        host,
        port: 80,
        request,
        limit: 1000,
    };
    Ok(Lane::new(alloc, 7, text(alloc, "http://a.test/1")?, asked))
}

fn hosts(alloc: Global) -> Result<Vec<Host>, Memory> {
    let mut hosts = Vec::new(alloc);
    hosts.push(Host {
        host: text(alloc, "a.test")?,
        port: 80,
        request: ByteBuf::from_slice(alloc, b"ask")?,
        response: ByteBuf::from_slice(alloc, RESPONSE)?,
    })?;
    Ok(hosts)
}

fn numbers(alloc: Global, of: &[u64]) -> Result<Vec<u64>, Memory> {
    Ok(Vec::from_slice(alloc, of)?)
}

// What comes of one try over a wire whose calls of these numbers fail, are cut or are quiet.
#[derive(Drop)]
struct Came {
    heard: Option<Heard>,
    failed: u8,
    last: Option<Cause>,
}

fn came_of(alloc: Global, fail: &[u64], cut: &[u64], quiet: &[u64]) -> Result<Came, Memory> {
    let mut wire = MemoryWire::new(
        alloc,
        hosts(alloc)?,
        1,
        numbers(alloc, fail)?,
        numbers(alloc, cut)?,
        numbers(alloc, quiet)?,
    );
    let mut lane = lane(alloc)?;
    let mut buffer = [0; 16];
    let heard = try_once(&mut wire, &mut lane, &mut buffer)?;
    Ok(Came {
        heard,
        failed: lane.flight.failed,
        last: lane.flight.last,
    })
}

fn is_reply(heard: &Option<Heard>) -> bool {
    match heard {
        Some(Heard::Reply(reply)) => reply.status == 200
            && reply.body.as_slice() == b"abc".as_slice(),
        _ => false,
    }
}

#[test]
fn a_response_in_single_bytes_is_heard(rt: HostRuntime) {
    let came = came_of(rt.alloc(), &[], &[], &[]).expect(&rt, "memory");
    assert!(rt; is_reply(&came.heard));
    assert!(rt; came.failed == 0);
}

#[test]
fn a_quiet_wait_changes_nothing(rt: HostRuntime) {
    let came = came_of(rt.alloc(), &[], &[], &[1, 2, 5]).expect(&rt, "memory");
    assert!(rt; is_reply(&came.heard));
}

#[test]
fn a_failed_opening_is_no_connection(rt: HostRuntime) {
    let came = came_of(rt.alloc(), &[0], &[], &[]).expect(&rt, "memory");
    assert!(rt; came.heard.is_none());
    assert!(rt; came.failed == 1);
    assert!(rt; came.last == Some(Cause::Connect));
}

#[test]
fn a_failed_send_breaks(rt: HostRuntime) {
    let came = came_of(rt.alloc(), &[2], &[], &[]).expect(&rt, "memory");
    assert!(rt; came.last == Some(Cause::Broken));
}

#[test]
fn an_early_end_is_a_cut(rt: HostRuntime) {
    let came = came_of(rt.alloc(), &[], &[10], &[]).expect(&rt, "memory");
    assert!(rt; came.last == Some(Cause::Cut));
}
