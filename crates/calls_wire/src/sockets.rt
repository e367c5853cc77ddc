//! Calls of `serve_site` over a socket of this machine.
use crate::cases::{REQUEST, RESPONSE, SITE, source};
use crate::sites::words;
use doc_server::{TcpPeers, serve_site};
use std::alloc::Global;
use std::io;
use std::io::Write;
use std::net::{Net, TcpStream};
use std::process::Abort;

// A giver that is bound to a port at which nothing listens yet, and the port.
fn bound<'r, T: Net + Abort>(rt: &'r T) -> (TcpPeers<'r, T>, u16) {
    for port in 20_611..20_711 {
        let mut peers = TcpPeers::new(rt, port);
        if peers.bind() {
            return (peers, port);
        }
    }
    panic!(rt; "no port is free")
}

fn ask<T: Net + Abort>(rt: &T, port: u16) -> T::Stream {
    let mut stream = TcpStream::connect(rt, ("127.0.0.1", port)).expect(rt, "a connection");
    stream.write_all(REQUEST.as_bytes()).expect(rt, "a write");
    stream
}

fn serve<T: Net + Abort>(alloc: Global, rt: &T, peers: &mut TcpPeers<'_, T>) -> u8 {
    let words = words(alloc, rt, "8080 1");
    let mut input = source(alloc, rt, SITE, &[]);
    serve_site(alloc, words.as_slice(), &mut input, peers)
}

// The connection waits with its request until it is accepted.
fn answers_over_a_socket<T: Net + Abort>(alloc: Global, rt: &T) -> bool {
    let (mut peers, port) = bound(rt);
    let stream = ask(rt, port);
    let code = serve(alloc, rt, &mut peers);
    let text = io::read_to_string(alloc, stream).expect(rt, "a response");
    code == 0 && text.as_str() == RESPONSE
}

#[test]
fn a_socket_is_answered(rt: HostRuntime) {
    assert!(rt; answers_over_a_socket(rt.alloc(), &rt));
}
