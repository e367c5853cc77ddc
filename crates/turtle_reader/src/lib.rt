//! Turtle, read to its triples.
//!
//! Promise: `read_turtle` gives the triples of a text in the order in which the grammar has them, or
//! the first fault and its place (`specs/Reading.antt`). The grammar stands in `specs/Grammar.antt`,
//! production by production, and reads as `grammar_model` says; each text has exactly one answer
//! (`one_answer`). Before it `resolve` gives the tokens of a text up to the first that nothing may
//! take, and the fault there (`specs/Resolving.antt`): a place where no token can be read, a bracket
//! past the limit, an IRI or a name that is refused. A token then has its keyword or mark, its text
//! with the escapes undone, its IRI in full by the base and the prefixes in force, or the number of its
//! blank node.
//! Not here: where tokens begin and end (`turtle_lexer`).
//!
//! It takes time linear in the text and in the IRIs that its names stand for, each of which is
//! written out, and in the base in force for each IRIREF, with one look-up in a map for each name and
//! label; and memory linear in the text and in these IRIs. Want of memory is `Memory`.
#![tactic(auto)]

mod document;
mod fault;
mod kind;
mod laws;
mod next;
mod reading;
mod resolving;
mod setting;
mod state;
mod token_fault;
mod triples;
mod words;

pub use crate::fault::ReadFault;
pub use crate::kind::{Kind, Token};
pub use crate::laws::one_answer;
pub use crate::reading::read_turtle;
pub use crate::resolving::{Resolved, resolve};
pub use crate::token_fault::{Fault, ResolveError};
