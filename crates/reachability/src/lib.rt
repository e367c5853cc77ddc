//! What a traversal is about: webs, outcomes of look-ups, reachability, and the record of a run.
//!
//! Promise: the definitions that all crates above cite stand in `specs/`: what a web answers in
//! `Web.antt`, edges and reachability in `Reach.antt`, and what a record says in `Record.antt`. The
//! law of `laws.rt` ties them: a traversed, faithful record with nothing queued has looked up
//! exactly the reachable links.
//! Not here: which outcome an answer has (`doc_reader`), and the run itself (`traverse_core`).
//!
//! Want of memory is `Memory` everywhere; after it every argument that was lent is as before.
#![tactic(auto)]

mod laws;
mod outcome;
mod record;
mod web;

pub use crate::laws::looked_up_is_reachable;
pub use crate::outcome::{Outcome, Why};
pub use crate::record::{Cause, Entry, Found, Record};
pub use crate::web::Web;
