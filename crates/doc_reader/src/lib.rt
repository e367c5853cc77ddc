//! Documents of a web: what the answer for a link comes to.
//!
//! Promise: `classify` gives, for every answer but that none comes, the outcome that
//! `specs/Outcome.antt` defines: the triples of a document of N-Triples or Turtle, the link that it
//! moved to, or why it is refused. The text of the link is the name of the document, and Turtle's
//! first base. `read_ntriples` and `one_reading` are handed on from `ntriples_reader`, `Outcome` and
//! `Why` from `reachability`.
//! Not here: the grammars (`ntriples_reader`, `turtle_reader`), where tokens begin and end
//! (`turtle_lexer`), and which links of a document are followed (`reach_criteria`).
//!
//! Want of memory is `Memory` everywhere; after it every argument that was lent is as before.
#![tactic(auto)]

mod classifying;

pub use crate::classifying::classify;
pub use ntriples_reader::{one_reading, read_ntriples};
pub use reachability::{Outcome, Why};
