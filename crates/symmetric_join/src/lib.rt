//! A join of two lists of rows that grow: each row that comes is met with the rows of the other side.
//!
//! Promise: a node is seen as two lists of rows. Each feed appends its row to one of them and gives
//! its merge with each compatible row of the other, in that side's order: as a bag, what the join of
//! the two lists gains by it, so that all feeds together give that join. The words are in `specs/Joins.antt` and `specs/Sides.antt`.
//! Not here: which rows are fed, and when (live plans).
//!
//! Want of memory is `Memory` everywhere; after it the node is as before.
#![tactic(auto)]

mod fed;
mod keyed;
mod laws;
mod meeting;
mod node;
mod table;

pub use crate::laws::feeds_add_up;
pub use crate::node::Node;
