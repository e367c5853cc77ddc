//! Direct calls of the libraries that speak with connections: the small server, in memory and over a socket.
//! It has tests alone, since a library with tests of its own is proved twice.
//!
//! Each public call that can answer want of memory is made at least once with ample memory, and its
//! answer is compared with one from outside. What a contract says of all arguments is not tried
//! again here.
//! Not here: tests of sources, sinks and wires in memory (`calls_base`).
#![tactic(auto)]

#[cfg(test)]
mod cases;
#[cfg(test)]
mod connections;
#[cfg(test)]
mod sites;
#[cfg(test)]
mod sockets;
