//! Queries, cut into tokens.
//!
//! Promise: `lex_sparql` gives the token list of the text, each token the longest text that a rule
//! allows at its place. The rules are in `specs/Rules.antt`, the list is in `specs/Tokens.antt`, and
//! each text has one (`one_token_list`).
//! Not here: what tokens stand for (`terminals`, `specs/Values.antt`), and their grammar
//! (`sparql_parser`).
#![tactic(auto)]

mod kind;
mod laws;
mod lexing;
mod scan;
mod state;
mod token;

pub use crate::kind::QueryKind;
pub use crate::laws::one_token_list;
pub use crate::lexing::lex_sparql;
pub use crate::token::QueryToken;
