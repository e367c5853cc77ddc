//! Which triples a run follows, and the links that they name.
//!
//! Promise: `links_of` gives exactly the links of the IRIs of selected triples, each once, in order
//! of first appearance. The definitions are in `specs/Follow.antt`; `specs/Met.antt` says of which
//! IRIs it need not read the link again.
//! Not here: which links are reachable (`reachability`).
//!
//! Want of memory is `Memory` everywhere; after it every argument that was lent is as before.
#![tactic(auto)]

mod criterion;
mod following;
mod gathered;

pub use crate::criterion::{Criterion, selects};
pub use crate::following::links_of;
