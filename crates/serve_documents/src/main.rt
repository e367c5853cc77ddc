//! The program `serve_documents PORT COUNT`: it serves the site of its input at a port of this machine, on so many connections.
//!
//! It makes the real streams, calls `serve_site`, prints nothing, and exits with its answer.
#![tactic(auto)]

use doc_server::{TcpPeers, asked_port, serve_site};
use outer_ports::ReadSource;
use std::alloc::Global;
use std::process::ExitCode;
use std::rt::Env;
use std::{env, io};

/// The exit code for want of memory.
const MEMORY: u8 = 10;

/// The words after the program's name. It fails where one is no text.
fn words<R: Env + Alloc<A = Global>>(rt: &R) -> io::Result<Vec<String>> {
    let mut words = Vec::new(rt.alloc());
    for (i, word) in env::args(rt)?.enumerate() {
        if i > 0 {
            words.push(word)?;
        }
    }
    Ok(words)
}

fn is_want_of_memory(error: &io::Error) -> bool {
    matches!(error.kind(), io::ErrorKind::OutOfMemory)
}

fn main(rt: HostRuntime) -> ExitCode {
    let words = match words(&rt) {
        Ok(words) => words,
        Err(error) if is_want_of_memory(&error) => return ExitCode::from(MEMORY),
        // A word is no text, so the words are not a port and a number.
        Err(_) => Vec::new(rt.alloc()),
    };
    let mut input = ReadSource::new(rt.reader());
    // Where the first word is no port, the words are refused before any is bound.
    let port = asked_port(&words).unwrap_or(0);
    let mut peers = TcpPeers::new(&rt, port);
    ExitCode::from(serve_site(rt.alloc(), &words, &mut input, &mut peers))
}
