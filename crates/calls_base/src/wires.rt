//! Calls of the wire in memory of `outer_ports`.
ghost use Rattle.std.specs.Prelude.{◌<◌, length};

use outer_ports::{Host, MemoryWire, Opened, Received, Sent, Waited, Wire, WireCounts};
use rdf_terms::{ByteBuf, TextBuf};
use std::alloc::Global;
use std::process::Abort;

fn bytes(alloc: Global, rt: &impl Abort, of: &[u8]) -> ByteBuf {
    ByteBuf::from_slice(alloc, of).expect(rt, "memory")
}

fn host(alloc: Global, rt: &impl Abort, request: &[u8], response: &[u8]) -> Host {
    let host = TextBuf::from_str(alloc, "a.test").expect(rt, "memory");
    let request = bytes(alloc, rt, request);
    let response = bytes(alloc, rt, response);
    Host {
        host,
        port: 80,
        request,
        response,
    }
}

fn is_asked_for(host: &Host, request: &[u8], response: &[u8]) -> bool {
    host.host.as_str() == "a.test"
        && host.port == 80
        && host.request.as_slice() == request
        && host.response.as_slice() == response
}

fn copy_is_equal(alloc: Global, rt: &impl Abort) -> bool {
    let host = host(alloc, rt, b"ask", b"answer");
    let copy = host.copy().expect(rt, "memory");
    is_asked_for(&copy, b"ask", b"answer")
}

#[test]
fn a_copied_host_has_the_same_parts(rt: HostRuntime) {
    assert!(rt; copy_is_equal(rt.alloc(), &rt));
}

fn push_host(hosts: &mut Vec<Host>, host: Host, rt: &impl Abort) {
    hosts.push(host).expect(rt, "memory");
}

// Of two hosts that answer `ask`, the first counts.
fn hosts(alloc: Global, rt: &impl Abort) -> Vec<Host> {
    let mut hosts = Vec::new(alloc);
    push_host(&mut hosts, host(alloc, rt, b"ask", b"answer"), rt);
    push_host(&mut hosts, host(alloc, rt, b"ask", b"other"), rt);
    hosts
}

fn call(alloc: Global, rt: &impl Abort, number: u64) -> Vec<u64> {
    let mut calls = Vec::new(alloc);
    calls.push(number).expect(rt, "memory");
    calls
}

fn sure_wire(alloc: Global, rt: &impl Abort) -> MemoryWire {
    let hosts = hosts(alloc, rt);
    MemoryWire::new(
        alloc,
        hosts,
        4,
        Vec::new(alloc),
        Vec::new(alloc),
        Vec::new(alloc),
    )
}

// Call 0 fails, a receive at call 3 is cut, and a wait at call 5 is quiet.
fn unsure_wire(alloc: Global, rt: &impl Abort) -> MemoryWire {
    let hosts = hosts(alloc, rt);
    let fail = call(alloc, rt, 0);
    let cut = call(alloc, rt, 3);
    let quiet = call(alloc, rt, 5);
    MemoryWire::new(alloc, hosts, 4, fail, cut, quiet)
}

fn opens(rt: &impl Abort, wire: &mut MemoryWire, opened: Opened) -> bool {
    wire.open("a.test", 80).expect(rt, "memory") == opened
}

#[test]
fn an_opened_connection_has_a_number_of_its_own(rt: HostRuntime) {
    let mut wire = sure_wire(rt.alloc(), &rt);
    assert!(rt; opens(&rt, &mut wire, Opened::Conn(0)));
    assert!(rt; opens(&rt, &mut wire, Opened::Conn(1)));
}

// What comes of a request over a new connection.
fn ask<W: Wire>(wire: &mut W, request: &[u8], buf: &mut [u8]) -> Received
    requires request { 0 < length request.now }
    requires room { 0 < length buf.old }
{
    match wire.open("a.test", 80) {
        Ok(Opened::Conn(conn)) => match wire.send(conn, request) {
            Sent::Took(_) => wire.recv(conn, buf),
            _ => Received::Failed,
        },
        _ => Received::Failed,
    }
}

// What a wait answers once a connection is open.
fn wait<W: Wire>(wire: &mut W) -> Waited {
    match wire.open("a.test", 80) {
        Ok(Opened::Conn(_)) => wire.wait(),
        _ => Waited::Failed,
    }
}

fn answers(wire: &mut MemoryWire, request: &[u8], received: Received, bytes: &[u8]) -> bool
    requires { 0 < length request.now }
{
    let mut buf = [b'.'; 8];
    ask(wire, request, &mut buf) == received && buf.as_slice() == bytes
}

#[test]
fn a_listed_request_is_answered(rt: HostRuntime) {
    let mut wire = sure_wire(rt.alloc(), &rt);
    assert!(rt; answers(&mut wire, b"ask", Received::Took(4), b"answ...."));
    assert!(rt; answers(&mut wire, b"aks", Received::End, b"........"));
    assert!(rt; wait(&mut wire) == Waited::Ready(0));
}

// One opening failed, one receive was cut, and one wait was quiet.
const TROUBLE: WireCounts = WireCounts {
    faults: 2,
    misses: 1,
    stalls: 0,
    breaks: 0,
    ends: 1,
    quiets: 1,
};

#[test]
fn a_wire_has_the_trouble_that_it_was_told_to_have(rt: HostRuntime) {
    let mut wire = unsure_wire(rt.alloc(), &rt);
    assert!(rt; opens(&rt, &mut wire, Opened::Failed));
    assert!(rt; answers(&mut wire, b"ask", Received::End, b"........"));
    assert!(rt; wait(&mut wire) == Waited::Quiet);
    assert!(rt; wire.counts() == TROUBLE);
}

// Each wait comes behind one more opening, so that the new connection waits last.
#[test]
fn waits_name_the_connections_by_turns(rt: HostRuntime) {
    let mut wire = sure_wire(rt.alloc(), &rt);
    assert!(rt; wait(&mut wire) == Waited::Ready(0));
    assert!(rt; wait(&mut wire) == Waited::Ready(0));
    assert!(rt; wait(&mut wire) == Waited::Ready(1));
    assert!(rt; wait(&mut wire) == Waited::Ready(0));
    assert!(rt; wait(&mut wire) == Waited::Ready(2));
}

fn open_and_close<W: Wire>(wire: &mut W) -> bool {
    match wire.open("a.test", 80) {
        Ok(Opened::Conn(conn)) => {
            wire.close(conn);
            true
        }
        _ => false,
    }
}

#[test]
fn a_closed_connection_is_named_no_more(rt: HostRuntime) {
    let mut wire = sure_wire(rt.alloc(), &rt);
    assert!(rt; open_and_close(&mut wire));
    assert!(rt; wait(&mut wire) == Waited::Ready(1));
    assert!(rt; wait(&mut wire) == Waited::Ready(1));
}

fn push_call(calls: &mut Vec<u64>, number: u64, rt: &impl Abort) {
    calls.push(number).expect(rt, "memory");
}

// A receive at call 2 fails, a send at call 4, and a wait at call 6.
fn failing_wire(alloc: Global, rt: &impl Abort) -> MemoryWire {
    let mut fail = call(alloc, rt, 2);
    push_call(&mut fail, 4, rt);
    push_call(&mut fail, 6, rt);
    let hosts = hosts(alloc, rt);
    MemoryWire::new(alloc, hosts, 4, fail, Vec::new(alloc), Vec::new(alloc))
}

const FAILURES: WireCounts = WireCounts {
    faults: 3,
    misses: 0,
    stalls: 1,
    breaks: 2,
    ends: 0,
    quiets: 0,
};

#[test]
fn each_call_that_fails_counts_one_fault(rt: HostRuntime) {
    let mut wire = failing_wire(rt.alloc(), &rt);
    assert!(rt; answers(&mut wire, b"ask", Received::Failed, b"........"));
    assert!(rt; answers(&mut wire, b"ask", Received::Failed, b"........"));
    assert!(rt; wait(&mut wire) == Waited::Failed);
    assert!(rt; wire.counts() == FAILURES);
}
