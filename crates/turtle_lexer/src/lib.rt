//! Turtle and N-Triples, cut into tokens.
//!
//! Promise: `lex_turtle` and `lex_ntriples` give the token list of the bytes, each token the longest
//! text that a rule allows at its place. The rules are in `specs/Rules.antt`, the list is in
//! `specs/Tokens.antt`, and each text has one (`one_token_list`, `one_ntriples_token_list`).
//! Not here: what tokens stand for (`terminals`), and their grammars (`turtle_reader`,
//! `doc_reader`).
#![tactic(auto)]

mod dialect;
mod kind;
mod laws;
mod lexing;
mod scan;
mod state;
mod token;

pub use crate::kind::TurtleKind;
pub use crate::laws::{one_ntriples_token_list, one_token_list};
pub use crate::lexing::{lex_ntriples, lex_turtle};
pub use crate::token::Token;
