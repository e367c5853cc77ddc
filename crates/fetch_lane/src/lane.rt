ghost use Rattle.std.specs.Prelude.{◌≡◌, ◌≤◌, ◌↔◌, IsTrue, None};
ghost use Rattle.web_port.specs.Flights.{fresh};

use http_message::Reading;
use rdf_terms::{ByteBuf, TextBuf};
use std::alloc::Global;
use web_port::Flight;

/// Where the try of a lane stands.
#[derive(Clone, Copy, Debug, Drop)]
pub enum Stage {
    /// No connection is open.
    Closed,
    /// So many bytes of the request are sent over the connection, and there are more.
    Sending { conn: u64, at: usize },
    /// The request is sent, and the response comes. So many of its bytes stand at the front of the buffer and are not read
    /// yet, which is for want of memory alone.
    Receiving { conn: u64, held: usize },
}

/// A link that is looked up: what is asked, and of whom, and where its try stands.
#[derive(Drop)]
pub struct Lane {
    pub alloc: Global,
    pub flight: Flight,
    /// The host to connect to.
    pub host: TextBuf,
    pub port: u16,
    pub request: ByteBuf,
    /// The most bytes of a body.
    pub limit: u64,
    /// How often nothing came since the connection's opening, or since its last byte.
    pub silent: u8,
    pub stage: Stage,
    pub reading: Reading,
}

/// Whom a link is asked of, and with what.
#[derive(Drop)]
pub struct Asked {
    pub host: TextBuf,
    pub port: u16,
    pub request: ByteBuf,
    /// The most bytes of a body.
    pub limit: u64,
}

impl Lane {
    /// A look-up of the link of this number and text, of which no try has begun. No memory is taken.
    pub fn new(alloc: Global, number: u64, link: TextBuf, asked: Asked) -> Lane
        ensures flight { result.flight ≡ fresh number link }
        ensures host { result.host ≡ asked.host }
        ensures port { result.port ≡ asked.port }
        ensures request { result.request ≡ asked.request }
        ensures limit { result.limit ≡ asked.limit }
        ensures closed { result.stage ≡ Stage.Closed }
        ensures silent { result.silent ≡ 0 }
    {
        Lane {
            alloc,
            flight: Flight {
                number,
                link,
                failed: 0,
                last: None,
            },
            host: asked.host,
            port: asked.port,
            request: asked.request,
            limit: asked.limit,
            silent: 0,
            stage: Stage::Closed,
            reading: Reading::new(alloc, asked.limit),
        }
    }

    /// Whether the link is given up: so many of its tries have failed.
    pub fn is_given_up(&self, tries: u8) -> bool
        ensures { IsTrue result ↔ (tries ≤ self.now.flight.failed) }
    {
        self.flight.failed >= tries
    }
}
