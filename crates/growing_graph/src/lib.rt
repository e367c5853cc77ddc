//! A graph that grows: triples in the order in which they came, each once.
//!
//! Promise: a graph is seen as a list of triples; `insert` and `extend` append what is not there and
//! nothing else, and after want of memory the graph is as before. `matching` gives exactly the places
//! of the triples that match a pattern; it tries those alone that have one of the pattern's terms in
//! its place. The words are in `specs/Places.antt`.
//! Not here: what is logged when (`traverse_core`).
#![tactic(auto)]

mod graph;
mod index;
mod near;

pub use crate::graph::Graph;
