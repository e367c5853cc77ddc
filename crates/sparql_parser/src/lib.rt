//! Queries: SELECT of SPARQL 1.1, in the profile of `docs/FORMATS.md`.
//!
//! Promise: `read_query` gives a text's query exactly where the text is of the profile, and else its
//! first fault, with its kind and its place (`specs/Answer.antt`). The grammar is data, in the names
//! of SPARQL 1.1, section 19.8 (`specs/Grammar.antt`); what its parts make is in `algebra_translation`. Each
//! text has exactly one answer (`one_answer`), and each query that is given is valid.
//! Not here: tokens (`sparql_lexer`) and what they stand for (`sparql_resolve`), the algebra
//! (`algebra_translation`), and what a query means (`algebra_core`).
//!
//! Want of memory is `Memory`.
#![tactic(auto)]

mod exprs;
mod fault;
mod groups;
mod laws;
mod literals;
mod queries;
mod reading;
mod tokens;
mod triples;

pub use crate::fault::QueryFault;
pub use crate::laws::one_answer;
pub use crate::reading::{MOST_BYTES, read_query};
