//! HTTP messages: the request for a link, and responses read in any cut.
//!
//! Promise: a `Reading` gives what all bytes fed say together, however they were cut. A list of
//! bytes has one reading at most (`specs/Reading.antt`, `bytes_have_one_reading`), and an undecided one
//! has few bytes. `request_bytes` is the one text of `specs/Request.antt`.
//! Not here: which replies are documents (`link_uri`, `doc_reader`), and connections (`outer_ports`).
//!
//! Want of memory is `Memory` everywhere; after it every argument that was lent is as before.
#![tactic(auto)]

mod body;
mod chunk_line;
mod facts;
mod fields;
mod framing;
mod head;
mod judging;
mod laws;
mod lengths;
mod lines;
mod reading;
mod request;
mod stages;

pub use crate::body::Ended;
pub use crate::laws::{
    a_printed_head_is_read_as_it_says, a_stated_length_is_that_many_bytes, bytes_have_a_reading,
    bytes_have_one_reading, nothing_read_is_never, spelled_chunks_are_read_as_their_data,
    undecided_bytes_are_few, what_is_decided_stays_decided,
};
pub use crate::reading::{Fed, Reading};
pub use crate::request::request_bytes;
