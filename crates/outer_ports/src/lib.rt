//! The ports through which bytes come in and go out: sources and sinks, in memory and over std, and
//! connections to hosts, in memory.
//!
//! Promise: what a port tells of its bytes is exact, each fault that it answers raises its count of
//! faults, and the kinds in memory fail exactly where they were told to. What a call does is in
//! `specs/Ports.antt` for sources and sinks and in `specs/Wire.antt` for connections, the one word
//! for causes in `specs/Causes.antt`.
//! Not here: sockets, and what the bytes mean.
//!
//! A want of memory is answered as `Memory`; it is no fault, and raises no count.
#![tactic(auto)]

mod host;
mod joined;
mod memory_sink;
mod memory_source;
mod memory_wire;
mod open_conns;
mod piece;
mod reading;
mod sink;
mod source;
mod std_ports;
mod stream;
mod sure_sink;
mod sure_source;
mod wire;
mod wire_counts;
mod writing;

pub use crate::host::Host;
pub use crate::joined::Joined;
pub use crate::memory_sink::MemorySink;
pub use crate::memory_source::MemorySource;
pub use crate::memory_wire::MemoryWire;
pub use crate::reading::{SourceFault, read_all};
pub use crate::sink::{Sink, Wrote};
pub use crate::source::{Read, Source};
pub use crate::std_ports::{ReadSource, WriteSink};
pub use crate::stream::Stream;
pub use crate::sure_sink::SureSink;
pub use crate::sure_source::SureSource;
pub use crate::wire::{Opened, Received, Sent, Waited, Wire};
pub use crate::wire_counts::WireCounts;
pub use crate::writing::{SinkFault, write_all};
