//! One look-up over one wire: its connection, the request on its way out, the response on its way in, and how a try ends.
//!
//! Promise: a try fails only by a cause that the wire's counts show, a silence only after a hundred counts of it with no
//! byte between, and what is heard is what the host's response is read as, however it was cut into pieces (`specs/Went.antt`,
//! `specs/Responses.antt`). Each connection that a try opened is closed when the try ends.
//! Not here: several lanes at a time, and how often a link is tried (`fetch_poll`).
//!
//! Want of memory is `Memory` everywhere. After it the same connection is open with the same tries; bytes that were received
//! are held in the buffer that was lent, and read later.
#![tactic(auto)]

mod lane;
mod opening;
mod receiving;
mod sending;
mod silence;
mod went;
mod working;

pub use crate::lane::{Asked, Lane, Stage};
pub use crate::went::Went;
