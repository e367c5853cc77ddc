//! Calls of `serve_site` over connections in memory.
ghost use Rattle.std.specs.List.{All};
ghost use Rattle.doc_server.specs.Memory.{IsUnused};

use crate::cases::{AMPLE, REQUEST, RESPONSE, SITE, connection, source};
use doc_server::{MemoryConn, MemoryPeers, serve_site};
use std::alloc::Global;
use std::process::Abort;

pub fn words(alloc: Global, rt: &impl Abort, line: &str) -> Vec<String> {
    let mut words = Vec::new(alloc);
    for word in line.split(' ') {
        let word = String::from_str(alloc, word).expect(rt, "memory");
        words.push(word).expect(rt, "memory");
    }
    words
}

#[tactic(auto, using(crate::proofs::Unused::unused_push))]
fn add(rt: &impl Abort, conns: &mut Vec<MemoryConn>, conn: MemoryConn)
    requires unused { All IsUnused conns.old.items }
    requires one { IsUnused conn }
    ensures { All IsUnused conns.new.items }
{
    conns.push(conn).expect(rt, "memory");
}

// Two connections: one whose room ends early, and one that is answered whole.
#[tactic(auto, using(crate::proofs::Unused::unused_none))]
fn connections(alloc: Global, rt: &impl Abort) -> Vec<MemoryConn>
    ensures { All IsUnused result.items }
{
    let mut conns = Vec::new(alloc);
    add(rt, &mut conns, connection(alloc, rt, REQUEST, 8, &[]));
    add(rt, &mut conns, connection(alloc, rt, REQUEST, AMPLE, &[]));
    conns
}

// They are given in their order, and the calls whose number stands in the list fail.
fn peers(alloc: Global, rt: &impl Abort, fail: &[u64]) -> MemoryPeers {
    let conns = connections(alloc, rt);
    let fail = Vec::from_slice(alloc, fail).expect(rt, "memory");
    MemoryPeers::new(alloc, conns, fail).expect(rt, "memory")
}

fn code(alloc: Global, rt: &impl Abort, line: &str, input: &str, peers: &mut MemoryPeers) -> u8 {
    let words = words(alloc, rt, line);
    let mut input = source(alloc, rt, input, &[]);
    serve_site(alloc, words.as_slice(), &mut input, peers)
}

fn has_answered(peers: &MemoryPeers, answers: &[&str]) -> bool {
    let returned = peers.returned();
    returned.len() == answers.len()
        && returned
            .iter()
            .zip(answers)
            .all(|(conn, answer)| conn.sink.content() == answer.as_bytes())
}

// Whether the words get this code, and the connections these answers.
fn serves(
    alloc: Global,
    rt: &impl Abort,
    line: &str,
    fail: &[u64],
    wanted: u8,
    answers: &[&str],
) -> bool {
    let mut peers = peers(alloc, rt, fail);
    code(alloc, rt, line, SITE, &mut peers) == wanted && has_answered(&peers, answers)
}

#[test]
fn as_many_are_served_as_the_words_say(rt: HostRuntime) {
    let alloc = rt.alloc();
    assert!(rt; serves(alloc, &rt, "8080 1", &[], 0, &["HTTP/1.1"]));
    assert!(rt; serves(alloc, &rt, "8080 02", &[], 0, &["HTTP/1.1", RESPONSE]));
    assert!(rt; serves(alloc, &rt, "8080 3", &[], 9, &["HTTP/1.1", RESPONSE]));
    assert!(rt; serves(alloc, &rt, "8080 2", &[1], 9, &["HTTP/1.1"]));
}

#[test]
fn other_words_are_usage(rt: HostRuntime) {
    let alloc = rt.alloc();
    assert!(rt; serves(alloc, &rt, "0 1", &[], 2, &[]));
    assert!(rt; serves(alloc, &rt, "65536 1", &[], 2, &[]));
    assert!(rt; serves(alloc, &rt, "8080 1000001", &[], 2, &[]));
    assert!(rt; serves(alloc, &rt, "8080", &[], 2, &[]));
    assert!(rt; serves(alloc, &rt, "8080 1 1", &[], 2, &[]));
    assert!(rt; serves(alloc, &rt, "8080 +1", &[], 2, &[]));
}

fn refuses_an_input(alloc: Global, rt: &impl Abort) -> bool {
    let mut peers = peers(alloc, rt, &[]);
    code(alloc, rt, "8080 1", "site 2\n", &mut peers) == 6 && has_answered(&peers, &[])
}

fn fails_with_its_input(alloc: Global, rt: &impl Abort) -> bool {
    let mut peers = peers(alloc, rt, &[]);
    let words = words(alloc, rt, "8080 1");
    let mut input = source(alloc, rt, SITE, &[1]);
    serve_site(alloc, words.as_slice(), &mut input, &mut peers) == 7 && has_answered(&peers, &[])
}

#[test]
fn an_input_that_is_no_site_is_refused(rt: HostRuntime) {
    let alloc = rt.alloc();
    assert!(rt; refuses_an_input(alloc, &rt));
    assert!(rt; fails_with_its_input(alloc, &rt));
}
