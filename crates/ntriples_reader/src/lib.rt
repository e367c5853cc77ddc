//! N-Triples, read to its triples.
//!
//! Promise: `read_ntriples` gives the triples of exactly the texts of the grammar, and of any other
//! text the first place that doesn't fit (`specs/Grammar.antt`, `specs/Reading.antt`); each text has
//! exactly one of the two (`one_reading`).
//! Not here: where tokens begin and end (`turtle_lexer`), and what the answer for a link comes to
//! (`doc_reader`).
//!
//! Want of memory is `Memory` everywhere; after it every argument that was lent is as before.
#![tactic(auto)]

mod cursor;
mod laws;
mod numbering;
mod piece;
mod reading;
mod statement;

pub use crate::laws::one_reading;
pub use crate::reading::read_ntriples;
pub use turtle_reader::ReadFault;
