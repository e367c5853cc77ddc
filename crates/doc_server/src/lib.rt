//! A small server: one connection after the other is answered by a site.
//!
//! Promise: what is written to a connection is the response of the site to the first 65,536 bytes that it
//! held, or a prefix of it after a fault (`serve_one`; `specs/Writing.antt`); `serve_site` serves as many
//! connections as its words say and hands each back, and each of its codes has its one cause
//! (`specs/Serving.antt`). What a giver of connections owes is in `specs/Peering.antt`; the one in memory
//! tells what each connection held and was answered.
//! Not here: what a response is (`site_core`), and the program, which makes the real streams (`serve_documents`).
//!
//! Want of memory ends the serving of all connections; it is no fault, and raises no count.
#![tactic(auto)]

mod ending;
mod head_end;
mod memory_conn;
mod memory_peers;
mod peers;
mod request;
mod serving;
mod site_serving;
mod tcp_peers;
mod words;

pub use crate::memory_conn::MemoryConn;
pub use crate::memory_peers::MemoryPeers;
pub use crate::peers::{NextPeer, Peers};
pub use crate::serving::{Served, serve_one};
pub use crate::site_serving::serve_site;
pub use crate::tcp_peers::TcpPeers;
pub use crate::words::asked_port;
