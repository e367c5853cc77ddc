//! Rows of solutions, triple patterns, and what one triple makes of a row.
//!
//! Promise: a row is seen as a list with one optional term for each variable. `compatible` and
//! `merge` are those of SPARQL, `match_triple` asks for an assignment of terms to variables, and
//! `bind` gives the least row that extends a row and gives the triple. The words are in `specs/`.
//! Not here: expressions of the algebra (`algebra_core`), and joins while a graph grows.
//!
//! Want of memory is `Memory` everywhere; after it every argument that was lent is as before.
#![tactic(auto)]

mod binding;
mod merging;
mod pattern;
mod row;

pub use crate::binding::bind;
pub use crate::merging::{compatible, merge};
pub use crate::pattern::{Spot, TriplePattern, match_triple};
pub use crate::row::Row;
