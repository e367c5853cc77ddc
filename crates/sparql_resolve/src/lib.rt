//! Queries, token by token, with what each token stands for.
//!
//! Promise: `resolve` gives the tokens of a text up to the first that nothing may take, and the fault
//! there (`specs/Resolving.antt`): a place where no token can be read, a bracket past the limits, an IRI
//! or a name that is refused, a label in two basic graph patterns. A token has its keyword or mark,
//! its text with the escapes undone, its IRI in full, or the number of its variable.
//! Not here: where tokens begin and end (`sparql_lexer`), and which follow one another
//! (`sparql_parser`).
//!
//! It takes time linear in the text and in the IRIs that its names stand for, each of which is
//! written out, and in the base in force for each IRIREF, with one look-up in a map for each name,
//! variable and label. Want of memory is `Memory`.
#![tactic(auto)]

mod fault;
mod iris;
mod kind;
mod marks;
mod names;
mod resolving;
mod state;
mod words;

pub use crate::fault::{Fault, ResolveError};
pub use crate::kind::{Kind, Token};
pub use crate::resolving::{Resolved, resolve};
