//! The links that a run has met, each once, and where the look-up of each stands. A link's number
//! is its place, and never changes.
//!
//! Promise: the table is a list of links with states; each link is the link of its own text, no
//! text stands twice, and each call is one step on that list. The words are in `specs/Table.antt`.
//! Not here: which links are added (`reach_criteria`), and when one may be taken (`traverse_core`).
//!
//! Want of memory is `Memory`; after it the table is as before.
#![tactic(auto)]

mod state;
mod table;

pub use crate::state::LinkState;
pub use crate::table::LinkTable;
